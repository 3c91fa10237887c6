// Where a row comes from.
ghost use Rattle.std.specs.Prelude.{◌≡◌};

use crate::kind::Kind;

// A row was given, with its tag, or it is the combination u·first + v·second of two earlier rows.
#[derive(Clone, Copy, PartialEq, Eq, Debug)]
pub enum Origin {
    Input {
        tag: u16,
    },
    Step {
        first: u16,
        second: u16,
        u: u32,
        v: u32,
    },
}

impl Origin {
    ghost use Rattle.rows.specs.Origins.{kind_of};

    pub fn kind(&self) -> Kind
        ensures { result ≡ kind_of self.now }
    {
        match self {
            Origin::Input { .. } => Kind::Input,
            Origin::Step { .. } => Kind::Step,
        }
    }
}
