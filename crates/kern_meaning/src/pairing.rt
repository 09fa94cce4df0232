ghost use Rattle.std.specs.Prelude.{◌≡◌, ◌<◌, ℕ, Ok, Err, None, OnOk, OnErr, IfErr, MatchResult, length, replicate, slice_index_or};
ghost use Rattle.kern_tree.specs.Parsed.{IsParsed};
ghost use Rattle.kern_meaning.specs.Pair as rules;
ghost use Rattle.kern_meaning.specs.Prepared.{IsMadeFor, given_at};
ghost use Rattle.kern_meaning.specs.Values.{components as components_of};
ghost use Rattle.kern_meaning.specs.Variables.{started_at};

use crate::laws::typed_kernels_have_one_pair;
use crate::link::Link;
use crate::statement::Walk;
use crate::variable::{Variable, variable_value};
use crate::{PairFault, PairStop, Scratch, Value};
use kern_token::Name;
use kern_tree::{Kernel, parsed_kernels_keep_limits};
use kern_types::{Typed, kernel};
use pf_geom::Point;
use pf_model::{Body, Item};

/// What a kernel gives the particle for the item, or the first fault. The scratch was made for the kernel.
/// After a fault every slot is empty.
pub fn pair(t: &Typed, i: &Body, j: &Item, s: &mut Scratch) -> Result<(), PairFault>
    requires { IsMadeFor t.now s.old }
    ensures made { IsMadeFor t.now s.new }
    ensures ok { OnOk result (rules.Pair t.now i.now j.now (Ok s.new.given)) }
    ensures fault { IfErr result (λ fault. rules.Pair t.now i.now j.now (Err fault)) }
    ensures emptied { OnErr result (s.new.given ≡ replicate (length s.old.given) None) }
{
    typed_kernels_have_one_pair();
    let k = kernel(t);
    let ended = run(
        k,
        s.names.as_slice(),
        s.links.as_slice(),
        s.variables.as_slice(),
        i,
        j,
        s.values.as_mut_slice(),
        s.slots.as_mut_slice(),
    );
    match ended {
        Ok(()) => Ok(()),
        Err(stop) => {
            clear(s.slots.as_mut_slice());
            match stop {
                PairStop::Fault(fault) => Err(fault),
                PairStop::NoResult => unreachable!(),
            }
        }
    }
}

fn run(
    k: &Kernel,
    names: &[Name],
    links: &[Link],
    variables: &[Variable],
    i: &Body,
    j: &Item,
    values: &mut [Option<Value>],
    slots: &mut [Option<Value>],
) -> Result<(), PairStop>
    requires parsed { IsParsed k.now }
    requires made { IsMadeFor k.now
        (record {
          names = names.now;
          links = links.now;
          variables = variables.now;
          values = values.old;
          given = slots.old;
        }) }
    ensures { MatchResult result
        (λ _. rules.pair_of k.now i.now j.now ≡ Ok slots.new)
        (λ stop. rules.pair_of k.now i.now j.now ≡ Err stop) }
{
    parsed_kernels_keep_limits();
    start(variables, i, j, values);
    clear(slots);
    let walk = Walk {
        decls: k.decls.as_slice(),
        names,
        i,
        j,
        coincident: is_same_place(i.at, j.at),
    };
    walk.block(k.body.as_slice(), links, 1, 0, values, slots)?;
    Ok(())
}

// The values of names at the start of a pair.
fn start(variables: &[Variable], i: &Body, j: &Item, values: &mut [Option<Value>])
    ensures { (k : ℕ) → k < length values.old
        → slice_index_or values.new k None ≡ started_at i.now j.now variables.now k }
{
    for k in 0..values.len() {
        values[k] = started(variables, k, i, j);
    }
}

fn started(variables: &[Variable], k: usize, i: &Body, j: &Item) -> Option<Value>
    ensures { result ≡ started_at i.now j.now variables.now k }
{
    match variables.get(k) {
        Some(variable) => variable_value(*variable, i, j),
        None => None,
    }
}

fn clear(slots: &mut [Option<Value>])
    ensures { slots.new ≡ replicate (length slots.old) None }
{
    slots.fill(None);
}

fn is_same_place(p: Point, q: Point) -> bool
    ensures { result ≡ rules.is_same_place p q }
{
    p.x == q.x && p.y == q.y && p.z == q.z
}

/// What the `+=` of this slot gave in the last pair, along x, y and z: a num stands in the first
/// component, and the others are 0. None exactly where it gave nothing.
pub fn slot(s: &Scratch, n: u32) -> Option<[i64; 3]>
    requires { n < length s.now.given }
    ensures { result ≡ given_at s.now.given n }
{
    match s.slots.get(n as usize) {
        Some(Some(value)) => Some(components(*value)),
        _ => None,
    }
}

fn components(value: Value) -> [i64; 3]
    ensures { result ≡ components_of value }
{
    match value {
        Value::Num(mantissa, _) => [mantissa, 0, 0],
        Value::Vec3(mantissas, _) => mantissas,
        Value::Condition(_) => [0; 3],
    }
}
