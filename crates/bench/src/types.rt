use script::types::Header;
use suite::kind::SuiteKind;

// A script: what it sets up, and the text of its steps.
#[derive(Clone, Copy)]
pub(crate) struct Script<'a> {
    pub(crate) header: Header<SuiteKind>,
    pub(crate) steps: &'a [u8],
}
