ghost use Rattle.std.specs.Prelude.{◌≡◌};
ghost use Rattle.table.specs.Description.{description};
ghost use Rattle.owners.specs.Ranks.{used_by, not_below, uses_wrong, line_rank};

use crate::lines::class_of_line;
use passes::first::some;
use records::statements::Statement;
use table::loaded::Loaded;

// Whether a use of class `used` can make an object of class `u`.
fn used_by(loaded: &Loaded, used: usize, u: usize) -> bool
    ensures { result ≡ used_by (description loaded.now) used u }
{
    let object = loaded.class(u);
    u == used || loaded.class(used).is_base() && object.is_member() && object.base as usize == used
}

// Whether it can, and the rank of class `u` is not below the user's.
fn not_below(loaded: &Loaded, user: usize, used: usize, u: usize) -> bool
    ensures { result ≡ not_below (description loaded.now) user used u }
{
    used_by(loaded, used, u) && loaded.class(user).rank <= loaded.class(u).rank
}

// Whether a line of class `user` uses what does not rank below it.
fn uses_wrong(loaded: &Loaded, user: usize, s: Option<Statement>) -> bool
    ensures { result ≡ uses_wrong (description loaded.now) user s }
{
    match s {
        Some(Statement::Use(line)) => some(loaded.classes.len(), |u| {
            not_below(loaded, user, line.class as usize, u)
        }),
        _ => false,
    }
}

// Whether line n uses what does not rank below its class.
pub fn line_rank(loaded: &Loaded, n: usize) -> bool
    ensures { result ≡ line_rank (description loaded.now) n }
{
    uses_wrong(loaded, class_of_line(loaded, n), loaded.statement(n))
}
