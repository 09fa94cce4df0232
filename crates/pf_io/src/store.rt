ghost use Rattle.std.specs.Prelude.{◌≡◌, ◌≢◌, ◌+◌, ◌-◌, ◌<◌, ◌≤◌, ◌^◌, ◌↔◌, Bool, true, false, [], take, length, Option, Some, None, option_map, is_some, is_ok, if◌then◌else◌, IfOk, IfSome, IsSome, OnOk, OnErr, IsTrue};
ghost use Rattle.pf_io.specs.Store.{Told, Faults, after_open, after_read, after_create, after_write, after_say, one_more_open, one_more_read, one_more_create, one_more_write, one_more_say, counted};

/// Why a method of a store gave up.
#[derive(Clone, Copy, Debug, PartialEq, Eq, Hash)]
pub enum StoreErr {
    /// The store itself failed, which it counts.
    Failed,
    /// Memory ran out.
    Memory,
}

/// A place for files: at most one is open as the source, at most one as the sink, and texts can be said.
pub trait Store {
    /// The files, the unread rest of the source, the sink and what was said, where the store tells them.
    ghost told: { Self → Option Told };

    ghost has_source: { Self → Bool };

    ghost has_sink: { Self → Bool };

    /// How often each method failed.
    ghost faults: { Self → Faults };

    /// Whether the store tells that its methods fail no more, but for what isn't there.
    ghost is_steady: { Self → Bool };

    /// Makes the named file the source, from its first byte.
    fn open(&mut self, name: &str) -> Result<(), StoreErr>
        requires { (faults self.old).opens < 2 ^ 64 - 1 }

        ensures there { OnOk result (IfSome (told self.old) (λ t. IsSome (t.files name.now))) }
        ensures opened { OnOk result (told self.new ≡ option_map (after_open name.now) (told self.old)) }
        ensures err { OnErr result (told self.new ≡ told self.old) }

        ensures source { has_source self.new ≡ (if is_ok result then true else has_source self.old) }
        ensures sink { has_sink self.new ≡ has_sink self.old }
        ensures faults { faults self.new ≡ counted one_more_open result (faults self.old) }

        ensures stays_steady { IsTrue (is_steady self.old) → IsTrue (is_steady self.new) }
        // A steady store fails only where it lacks the name.
        ensures steady { IsTrue (is_steady self.old) → result ≡ Err StoreErr.Failed
            → IfSome (told self.old) (λ t. t.files name.now ≡ None) };

    /// Takes the next bytes of the source, and answers how many. None is the end, unless `buf` is empty.
    fn read(&mut self, buf: &mut [u8]) -> Result<usize, StoreErr>
        requires { (faults self.old).reads < 2 ^ 64 - 1 }

        ensures within { IfOk result (λ n. n ≤ length buf.old) }
        ensures bytes { IfOk result (λ n. IfSome (told self.old) (λ t.
            (n ≤ length t.unread) × (take n buf.new ≡ take n t.unread))) }
        // Nothing is taken exactly at the end, or into an empty buffer.
        ensures end { IfOk result (λ n. IfSome (told self.old) (λ t.
            n ≡ 0 → 0 < length buf.old → t.unread ≡ [])) }
        ensures taken { IfOk result (λ n. told self.new ≡ option_map (after_read n) (told self.old)) }
        ensures err { OnErr result (told self.new ≡ told self.old) }

        ensures open { OnOk result (IsTrue (has_source self.old)) }
        ensures source { has_source self.new ≡ has_source self.old }
        ensures sink { has_sink self.new ≡ has_sink self.old }
        ensures faults { faults self.new ≡ counted one_more_read result (faults self.old) }

        ensures stays_steady { IsTrue (is_steady self.old) → IsTrue (is_steady self.new) }
        // A steady store fails only without a source.
        ensures steady { IsTrue (is_steady self.old) → result ≡ Err StoreErr.Failed → has_source self.old ≡ false };

    /// Makes the named file empty, and makes it the sink.
    fn create(&mut self, name: &str) -> Result<(), StoreErr>
        requires { (faults self.old).creates < 2 ^ 64 - 1 }

        ensures created { OnOk result (told self.new ≡ option_map (after_create name.now) (told self.old)) }
        ensures err { OnErr result (told self.new ≡ told self.old) }

        ensures source { has_source self.new ≡ has_source self.old }
        ensures sink { has_sink self.new ≡ (if is_ok result then true else has_sink self.old) }
        ensures faults { faults self.new ≡ counted one_more_create result (faults self.old) }

        ensures stays_steady { IsTrue (is_steady self.old) → IsTrue (is_steady self.new) }
        ensures steady { IsTrue (is_steady self.old) → result ≢ Err StoreErr.Failed };

    /// Appends the first bytes of the piece to the sink, and answers how many: some, unless it is empty.
    fn write(&mut self, piece: &[u8]) -> Result<usize, StoreErr>
        requires { (faults self.old).writes < 2 ^ 64 - 1 }

        ensures within { IfOk result (λ n. n ≤ length piece.now) }
        ensures some { IfOk result (λ n. 0 < length piece.now → 0 < n) }
        ensures written { IfOk result (λ n. told self.new
            ≡ option_map (after_write (take n piece.now)) (told self.old)) }
        ensures err { OnErr result (told self.new ≡ told self.old) }

        ensures open { OnOk result (IsTrue (has_sink self.old)) }
        ensures source { has_source self.new ≡ has_source self.old }
        ensures sink { has_sink self.new ≡ has_sink self.old }
        ensures faults { faults self.new ≡ counted one_more_write result (faults self.old) }

        ensures stays_steady { IsTrue (is_steady self.old) → IsTrue (is_steady self.new) }
        // A steady store fails only without a sink.
        ensures steady { IsTrue (is_steady self.old) → result ≡ Err StoreErr.Failed → has_sink self.old ≡ false };

    /// Says a text, to whom it may concern.
    fn say(&mut self, text: &[u8]) -> Result<(), StoreErr>
        requires { (faults self.old).says < 2 ^ 64 - 1 }

        ensures said { OnOk result (told self.new ≡ option_map (after_say text.now) (told self.old)) }
        ensures err { OnErr result (told self.new ≡ told self.old) }

        ensures source { has_source self.new ≡ has_source self.old }
        ensures sink { has_sink self.new ≡ has_sink self.old }
        ensures faults { faults self.new ≡ counted one_more_say result (faults self.old) }

        ensures stays_steady { IsTrue (is_steady self.old) → IsTrue (is_steady self.new) }
        ensures steady { IsTrue (is_steady self.old) → result ≢ Err StoreErr.Failed };

    // The sink's name is told exactly where there is a sink.
    ghost names_its_sink: { (s : Self) → IfSome (told s) (λ t. is_some t.sink ≡ has_sink s) };

    // The sink is one of the files.
    ghost has_its_sink: { (s : Self) → IfSome (told s) (λ t. IfSome t.sink (λ name. IsSome (t.files name))) };
}
