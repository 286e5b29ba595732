// An answer as numbers: document 01's number for each refusal ("Answer numbers"), and each value, 0 where the answer has none.
// It carries "Every refusal returns key 0 (arity 0, mark 0, arc (0,0))".

ghost use Rattle.std.specs.Prelude.{◌≡◌};
ghost use Rattle.rules.specs.Lent.{answered};
ghost use Rattle.rules.specs.Step as Step;

use rules::{Refusal, Reply, Told};

// Document 01's number of a refusal.
pub fn number_of(r: Refusal) -> u32
    ensures { result ≡ Step.number_of r }
{
    r as u32
}

// No number and no value.
const NOTHING: Reply = Reply {
    number: 0,
    key: 0,
    source: 0,
    destination: 0,
    mark: 0,
    arity: 0,
};

// An answer's number and values.
pub fn told(answer: Result<Told, Refusal>) -> Reply
    ensures { result ≡ Step.told (answered answer) }
{
    match answer {
        Ok(Told::Key(key)) => Reply { key, ..NOTHING },
        Ok(Told::Arc(source, destination)) => Reply {
            source,
            destination,
            ..NOTHING
        },
        Ok(Told::Mark(mark)) => Reply { mark, ..NOTHING },
        Ok(Told::Arity(arity)) => Reply { arity, ..NOTHING },
        Ok(Told::Done) => NOTHING,
        Err(r) => Reply {
            number: number_of(r),
            ..NOTHING
        },
    }
}
