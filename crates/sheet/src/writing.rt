// Writing what a rule adds and the branch does not hold. Functions, since facts to add and ledgers are of other crates: a method
// would want a trait that one type has.
ghost use Rattle.calculus.specs.Playing.{cut_to, free};
ghost use Rattle.ledger.specs.Books.{book};
ghost use Rattle.ledgers.specs.Contents.{ledgers_of};
ghost use Rattle.sheet.specs.Writing.{can_write, rows_in, write_adds};
ghost use Rattle.std.specs.Prelude.{◌≡◌, length};

use calculus::row_kinds::PendingRow;
use kb::axioms::Assertion;
use ledger::Ledger;
use ledgers::Ledgers;
use table::adds::Adds;

// How many places of a ledger are free.
fn free_places<T: Copy>(ledger: &Ledger<'_, T>) -> usize
    ensures { result ≡ length (book ledger.now).free }
{
    ledger.size() - ledger.count()
}

// Whether there is a place for each of the facts.
pub(crate) fn can_write(ledgers: &Ledgers<'_>, adds: Adds) -> bool
    ensures { result ≡ can_write adds (ledgers_of ledgers.now) }
{
    match adds {
        Adds::Nothing => true,
        Adds::Fact(fact) => ledgers.has_room_for(&fact),
        Adds::Parts(_, _, _) => free_places(&ledgers.concepts) >= 2,
        Adds::Reached(_, _, _, _) => {
            free_places(&ledgers.roles) > 0 && free_places(&ledgers.concepts) > 0
        }
    }
}

// How many rows the facts are. An unlisted assertion is none.
pub(crate) fn row_count(adds: Adds) -> usize
    ensures { result ≡ rows_in adds }
{
    match adds {
        Adds::Nothing | Adds::Fact(Assertion::Unlisted(_)) => 0,
        Adds::Fact(_) => 1,
        Adds::Parts(_, _, _) | Adds::Reached(_, _, _, _) => 2,
    }
}

// Writes each of the facts.
pub(crate) fn write_adds(ledgers: &mut Ledgers<'_>, adds: Adds)
    ensures { ledgers_of ledgers.new ≡ write_adds adds (ledgers_of ledgers.old) }
{
    match adds {
        Adds::Nothing => {}
        Adds::Fact(fact) => ledgers.write(fact),
        Adds::Parts(d, e, x) => {
            ledgers.write(Assertion::Is(d, x));
            ledgers.write(Assertion::Is(e, x));
        }
        Adds::Reached(r, x, y, d) => {
            ledgers.write(Assertion::Joins(r, x, y));
            ledgers.write(Assertion::Is(d, y));
        }
    }
}

// Whether there is a place behind the concept rows that a right side notes.
pub(crate) fn has_place_behind(ledgers: &Ledgers<'_>, side: &PendingRow) -> bool
    ensures { result ≡ free (cut_to side.now (ledgers_of ledgers.now)).concepts }
{
    side.concepts < ledgers.concepts.count() || free_places(&ledgers.concepts) > 0
}
