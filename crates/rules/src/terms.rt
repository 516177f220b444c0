ghost use Rattle.std.specs.Prelude.{◌≡◌};
ghost use Rattle.std.specs.Option.{ok_or};
ghost use Rattle.rules.specs.Numbers.{operator_number, operator_with};
ghost use Rattle.rules.specs.Terms.{term};

use crate::lookups::of_halves;
use records::records::Node;
use thiserror::Error;

// The operators on two values, with the number of each in a node.
#[derive(Clone, Copy, PartialEq, Eq, Debug)]
pub enum Operator {
    Multiply = 4,
    Divide = 5,
    Remainder = 6,
    Add = 7,
    Subtract = 8,
    ShiftLeft = 9,
    ShiftRight = 10,
    Less = 11,
    AtMost = 12,
    Greater = 13,
    AtLeast = 14,
    Equal = 15,
    Unequal = 16,
    BitAnd = 17,
    BitOr = 18,
    And = 19,
    Or = 20,
}

impl Operator {
    // The number of the operator in a node.
    pub fn number(self) -> u16
        ensures { result ≡ operator_number self }
    {
        self as u16
    }
}

// A number that no operator has.
#[derive(Clone, Copy, PartialEq, Eq, Debug, Error)]
#[error("no operator has the number {number}")]
pub struct UnknownOperator {
    pub number: u16,
}

// The operator with a number.
impl TryFrom<u16> for Operator {
    type Error = UnknownOperator;

    ghost try_from_gives = { λ number result. result ≡ ok_or (operator_with number) (record { number = number }) };

    fn try_from(number: u16) -> Result<Operator, UnknownOperator> {
        match number {
            4 => Ok(Operator::Multiply),
            5 => Ok(Operator::Divide),
            6 => Ok(Operator::Remainder),
            7 => Ok(Operator::Add),
            8 => Ok(Operator::Subtract),
            9 => Ok(Operator::ShiftLeft),
            10 => Ok(Operator::ShiftRight),
            11 => Ok(Operator::Less),
            12 => Ok(Operator::AtMost),
            13 => Ok(Operator::Greater),
            14 => Ok(Operator::AtLeast),
            15 => Ok(Operator::Equal),
            16 => Ok(Operator::Unequal),
            17 => Ok(Operator::BitAnd),
            18 => Ok(Operator::BitOr),
            19 => Ok(Operator::And),
            20 => Ok(Operator::Or),
            _ => Err(UnknownOperator { number }),
        }
    }
}

// A node with its fields by name.
#[derive(Clone, Copy, PartialEq, Eq, Debug)]
pub enum Term {
    // the constant
    Constant {
        value: u32,
    },
    // the value of a name
    Named {
        name: u16,
    },
    // the size of the own object
    OwnSize,
    // an operator on the values of two nodes
    Apply {
        operator: Operator,
        left: u16,
        right: u16,
    },
}

// The node's fields, by the names that they have at its operator.
impl TryFrom<Node> for Term {
    type Error = UnknownOperator;

    ghost try_from_gives = { λ node result. result ≡ ok_or (term node) (record { number = node.op }) };

    fn try_from(node: Node) -> Result<Term, UnknownOperator> {
        match node.op {
            1 => Ok(Term::Constant {
                value: of_halves(node.a, node.b),
            }),
            2 => Ok(Term::Named { name: node.a }),
            3 => Ok(Term::OwnSize),
            number => Ok(Term::Apply {
                operator: Operator::try_from(number)?,
                left: node.a,
                right: node.b,
            }),
        }
    }
}

// The node's fields, by the names that they have at its operator, where there is such an operator. It can't fail: what
// it answers has a place for none. Where it matters which number no operator has, there is `TryFrom`.
pub fn term_of(node: Node) -> Option<Term>
    ensures { result ≡ term node }
{
    Term::try_from(node).ok()
}
