// The value of a node, by recursion over node numbers, which fall at each call.
ghost use Rattle.std.specs.Prelude.{◌≡◌, pos};
ghost use Rattle.std.specs.Option.{option_copied, unwrap_or};
ghost use Rattle.table.specs.Description.{entry, no_node};
ghost use Rattle.rules.specs.Terms.{term};
ghost use Rattle.values.specs.Names.{named_by};
ghost use Rattle.values.specs.Scopes.{value_in, applied_in};

use crate::operators::apply;
use records::records::Node;
use rules::faults::{Failure, ReadingCause};
use rules::terms::{Operator, Term};
use table::record::numbered;

// The value of name number n, 0 where there is none.
pub fn name_at(names: &[i64], n: u16) -> i64
    ensures { result ≡ named_by names.now n }
{
    numbered(names, n as usize).copied().unwrap_or(0)
}

// What an object's values are worked out from: the nodes, the values of the object's names, and its size in bytes.
#[derive(Clone, Copy)]
pub struct Scope<'a> {
    pub nodes: &'a [Node],
    pub names: &'a [i64],
    pub size: u32,
}

impl Scope<'_> {
    // Node number k with its fields by name, where there is one.
    fn term(&self, k: u16) -> Option<Term>
        ensures { result ≡ term (entry self.now.nodes.now k no_node) }
    {
        Term::try_from(*numbered(self.nodes, k as usize)?).ok()
    }

    // The value of node number k, or the failure of the first node that fails.
    #[inline(always)]
    #[cycle(applied_value)]
    pub fn value(&self, k: u16) -> Result<i64, Failure>
        ensures { result ≡ value_in self.now k }
    {
        match self.term(k).ok_or(ReadingCause::Unchecked)? {
            Term::Constant { value } => Ok(i64::from(value)),
            Term::Named { name } => Ok(name_at(self.names, name)),
            Term::OwnSize => Ok(i64::from(self.size)),
            Term::Apply {
                operator,
                left,
                right,
            } => self.applied(k, operator, left, right),
        }
    }

    // What the operator of node number k gives of two nodes before it, or the failure of the first node that fails. Apart
    // from `value`, which then is so short that it stands where it is called.
    #[inline(never)]
    #[cycle(applied_value)]
    fn applied(&self, k: u16, operator: Operator, left: u16, right: u16) -> Result<i64, Failure>
        ensures { result ≡ applied_in self.now k operator left right }
    {
        if left >= k {
            return Err(ReadingCause::Unchecked.into());
        }
        let x = self.value(left)?;
        if right >= k {
            return Err(ReadingCause::Unchecked.into());
        }
        let y = self.value(right)?;
        apply(operator, x, y).map_err(|cause| Failure { cause, node: k })
    }
}
