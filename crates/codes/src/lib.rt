// The names behind the codes: the Rust's enums, and for each which bytes are its codes, the name of a byte and the byte of a name: a trait, `Code`, with
// one leaf for all of them. Which byte stands for a name, and so which name a byte has, is said once, in specs/Names.
#![tactic(auto)]

ghost use Rattle.std.specs.Prelude.{ℕ, ◌≡◌, true, List};
ghost use Rattle.format.specs.Layout.{code, field, member};
ghost use Rattle.format.specs.Meaning.{field_m};
ghost use Rattle.codes.specs.Coded.{backs};

mod market;
mod stock;
mod subtype;
mod trade;

use format::Fault;
pub use market::{
    EventCode, HaltAction, IpoReleaseQualifier, LevelBreached, MarketCode, MarketMakerMode,
    MarketParticipantState, RegShoAction, TradingState,
};
pub use stock::{
    Authenticity, EtpFlag, FinancialStatus, Flag, IssueClassification, LuldRefPriceTier,
    MarketCategory, YesNo,
};
pub use subtype::{IssueSubType, subtype_at, subtype_code};
pub use trade::{CrossType, ImbalanceCross, ImbalanceDirection, InterestFlag, Side};

// A set of codes of one byte, each with a name. Most are enums, which are their own names.
pub trait Code {
    type Name: Copy;

    // The bytes that are codes; the byte of a name; the name of a byte.
    ghost set: { List ℕ };

    ghost byte: { Self.Name → ℕ };

    ghost name: { ℕ → Self.Name };

    // Whether a byte is a code.
    fn has(b: u8) -> bool
        ensures { result ≡ member b set };

    // The name of a byte. One that is no code has a name, too: the leaf refuses it before it is asked.
    fn name(b: u8) -> Self::Name
        ensures { result ≡ name b };

    // The byte of a name.
    fn byte(x: Self::Name) -> u8
        ensures { result ≡ byte x };

    // Each code is the byte of its name.
    ghost named: { backs byte name set ≡ true };
}

// The code at a place, by its name: short where the window ends before it, and 2 with the place where the byte there is no code of the set. It is put into
// each body that has such a field: left to the compiler, some sets have a function of their own, which hands its answer on in memory, and makes the name where
// nobody asks for it.
#[inline(always)]
pub fn code_at<C: Code>(s: &[u8], place: u8) -> Result<C::Name, Fault>
    ensures { field_m C.byte result ≡ field (code C.set) s.now place }
{
    let b: u8 = format::number_at(s, place)?;
    if C::has(b) {
        Ok(C::name(b))
    } else {
        Err(format::refused(2, place as usize))
    }
}
