ghost use Rattle.std.specs.Prelude.{◌≡◌};
ghost use Rattle.command_frame.specs.Effects.{CarriesOut};
ghost use Rattle.command_frame.specs.Standing.{standing};
ghost use Rattle.command_frame.specs.Status.{EndsSpeaking, HasRoom};
ghost use Rattle.command_frame.specs.Verdict.{speaks};

use crate::status::{Status, StoreCall};
use pf_io::{Store, StoreErr};

/// Says the text that a command answers.
pub fn say_answer<R, F, S: Store>(store: &mut S, text: &[u8]) -> Status<R, F>
    requires { HasRoom (S.faults store.old) }
    ensures { CarriesOut EndsSpeaking (λ files verdict. verdict ≡ speaks text.now) result
        (standing (S.told store.old) (S.faults store.old) (S.is_steady store.old))
        (standing (S.told store.new) (S.faults store.new) (S.is_steady store.new)) }
{
    match store.say(text) {
        Ok(()) => Status::Done,
        Err(StoreErr::Failed) => Status::StoreFault(StoreCall::Say),
        Err(StoreErr::Memory) => Status::Memory,
    }
}
