ghost use Rattle.suite.specs.Kinds.{Names};

// A suite by its kind, before it has keys.
#[derive(Clone, Copy, PartialEq, Eq, Debug)]
pub enum SuiteKind {
    Sip,
    Cmac,
}

// A number that no suite has.
#[derive(Clone, Copy, PartialEq, Eq, Debug)]
pub struct UnknownSuite(pub u64);

impl TryFrom<u64> for SuiteKind {
    type Error = UnknownSuite;

    ghost try_from_gives = { Names };

    fn try_from(number: u64) -> Result<SuiteKind, UnknownSuite> {
        match number {
            1 => Ok(SuiteKind::Sip),
            2 => Ok(SuiteKind::Cmac),
            _ => Err(UnknownSuite(number)),
        }
    }
}
