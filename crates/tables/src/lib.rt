// The two tables and what is decided from them: a tag's size, and whether a byte is a legal code of a set.
//
// Which bytes are codes is said by specs/Codes of the crate `format`.
//
// A table that is indexed where it is used is built anew on the stack at each use, so what is likely is decided by constants that are computed
// from the tables when the program is compiled, and only a byte that is no code of its set is looked up. The tables stay the one source.
#![tactic(auto)]

ghost use Rattle.std.specs.Prelude.{◌≡◌};
ghost use Rattle.format.specs.Codes.{side, yes_no, trading_state, direction, imbalance_cross, qualifier, maker_mode, participant_state, interest, cross, category, status, class, authenticity, flag, tier, etp_flag, event, level, action, market, halt};
ghost use Rattle.format.specs.Layout.{member};
ghost use Rattle.format.specs.Rows.{size_by};
ghost use Rattle.tables.specs.Masks.{mask_of, Legal};

mod masks;
mod sizes;

use format::{Edition, Reading};
use masks::MASKS;
use sizes::SIZES;

// The place behind each message: two length bytes and the size. Behind A, an add order.
pub const END_A: usize = SIZES[b'A' as usize] as usize + 2;

// Behind B, a broken trade.
pub const END_B: usize = SIZES[b'B' as usize] as usize + 2;

// Behind C, an order executed with a price.
pub const END_C: usize = SIZES[b'C' as usize] as usize + 2;

// Behind D, a deleted order.
pub const END_D: usize = SIZES[b'D' as usize] as usize + 2;

// Behind E, an executed order.
pub const END_E: usize = SIZES[b'E' as usize] as usize + 2;

// Behind F, an add order with a participant.
pub const END_F: usize = SIZES[b'F' as usize] as usize + 2;

// Behind H, a trading action.
pub const END_H: usize = SIZES[b'H' as usize] as usize + 2;

// Behind I, an imbalance.
pub const END_I: usize = SIZES[b'I' as usize] as usize + 2;

// Behind J, an auction collar.
pub const END_J: usize = SIZES[b'J' as usize] as usize + 2;

// Behind K, an IPO quoting period.
pub const END_K: usize = SIZES[b'K' as usize] as usize + 2;

// Behind L, a participant's position.
pub const END_L: usize = SIZES[b'L' as usize] as usize + 2;

// Behind N, a retail price improvement indicator.
pub const END_N: usize = SIZES[b'N' as usize] as usize + 2;

// Behind O, a direct listing.
pub const END_O: usize = SIZES[b'O' as usize] as usize + 2;

// Behind P, a trade that is no cross.
pub const END_P: usize = SIZES[b'P' as usize] as usize + 2;

// Behind Q, a cross trade.
pub const END_Q: usize = SIZES[b'Q' as usize] as usize + 2;

// Behind R, a stock directory.
pub const END_R: usize = SIZES[b'R' as usize] as usize + 2;

// Behind S, a system event.
pub const END_S: usize = SIZES[b'S' as usize] as usize + 2;

// Behind U, a replaced order.
pub const END_U: usize = SIZES[b'U' as usize] as usize + 2;

// Behind V, the decline levels.
pub const END_V: usize = SIZES[b'V' as usize] as usize + 2;

// Behind W, a breach of a level.
pub const END_W: usize = SIZES[b'W' as usize] as usize + 2;

// Behind X, a cancelled order.
pub const END_X: usize = SIZES[b'X' as usize] as usize + 2;

// Behind Y, a Reg SHO restriction.
pub const END_Y: usize = SIZES[b'Y' as usize] as usize + 2;

// Behind h, an operational halt.
pub const END_OPERATIONAL_HALT: usize = SIZES[b'h' as usize] as usize + 2;

// A tag's size by a reading, counted from the tag on; zero where the reading has no such tag. One table has the sizes of both editions: that the old
// one lacks h and O is decided here.
pub fn size_of_tag(tag: u8, reading: Reading) -> u8
    ensures { result ≡ size_by reading tag }
{
    let edition = reading.edition;
    match edition {
        Edition::Later => SIZES[tag as usize],
        Edition::Old => match tag {
            b'O' | b'h' => 0,
            _ => SIZES[tag as usize],
        },
    }
}

// In which sets a byte is legal.
fn mask(b: u8) -> u32
    ensures { result ≡ mask_of b }
{
    MASKS[b as usize]
}

// Whether a byte is legal in the set whose bit this is.
fn legal(b: u8, bit: u32) -> bool
    ensures { Legal b bit result }
{
    mask(b) & bit != 0
}

// Whether the table has every byte that an arm below names in the set. So for each set: its constant, and whether a byte is in it. No generic
// function stands in for them: the arms, in which they differ, are all that each of them is.
const SIDE_ARMS: bool = MASKS[b'B' as usize] & MASKS[b'S' as usize] & masks::SIDE != 0;

// Whether a byte is a code of the side: B or S.
pub fn is_side(b: u8) -> bool
    ensures { result ≡ member b side }
{
    match b {
        b'B' | b'S' => SIDE_ARMS,
        _ => legal(b, masks::SIDE),
    }
}

const YES_NO_ARMS: bool = MASKS[b'Y' as usize] & MASKS[b'N' as usize] & masks::YES_NO != 0;

// Whether a byte is a code of yes or no: Y or N.
pub fn is_yes_no(b: u8) -> bool
    ensures { result ≡ member b yes_no }
{
    match b {
        b'Y' | b'N' => YES_NO_ARMS,
        _ => legal(b, masks::YES_NO),
    }
}

const TRADING_STATE_ARMS: bool = MASKS[b'H' as usize]
    & MASKS[b'P' as usize]
    & MASKS[b'Q' as usize]
    & MASKS[b'T' as usize]
    & masks::TRADING_STATE
    != 0;

// Whether a byte is a code of the trading state: H, P, Q or T.
pub fn is_trading_state(b: u8) -> bool
    ensures { result ≡ member b trading_state }
{
    match b {
        b'H' | b'P' | b'Q' | b'T' => TRADING_STATE_ARMS,
        _ => legal(b, masks::TRADING_STATE),
    }
}

const DIRECTION_ARMS: bool = MASKS[b'B' as usize]
    & MASKS[b'S' as usize]
    & MASKS[b'N' as usize]
    & MASKS[b'O' as usize]
    & masks::DIRECTION
    != 0;

// Whether a byte is a code of the imbalance's direction: B, S, N or O.
pub fn is_direction(b: u8) -> bool
    ensures { result ≡ member b direction }
{
    match b {
        b'B' | b'S' | b'N' | b'O' => DIRECTION_ARMS,
        _ => legal(b, masks::DIRECTION),
    }
}

const IMBALANCE_CROSS_ARMS: bool = MASKS[b'O' as usize]
    & MASKS[b'C' as usize]
    & MASKS[b'H' as usize]
    & MASKS[b'A' as usize]
    & masks::IMBALANCE_CROSS
    != 0;

// Whether a byte is a code of the cross of an imbalance: O, C, H or A.
pub fn is_imbalance_cross(b: u8) -> bool
    ensures { result ≡ member b imbalance_cross }
{
    match b {
        b'O' | b'C' | b'H' | b'A' => IMBALANCE_CROSS_ARMS,
        _ => legal(b, masks::IMBALANCE_CROSS),
    }
}

const QUALIFIER_ARMS: bool = MASKS[b'A' as usize] & MASKS[b'C' as usize] & masks::QUALIFIER != 0;

// Whether a byte is a code of the release's qualifier: A or C.
pub fn is_qualifier(b: u8) -> bool
    ensures { result ≡ member b qualifier }
{
    match b {
        b'A' | b'C' => QUALIFIER_ARMS,
        _ => legal(b, masks::QUALIFIER),
    }
}

const MAKER_MODE_ARMS: bool = MASKS[b'N' as usize]
    & MASKS[b'P' as usize]
    & MASKS[b'S' as usize]
    & MASKS[b'R' as usize]
    & MASKS[b'L' as usize]
    & masks::MAKER_MODE
    != 0;

// Whether a byte is a code of the market maker's mode: N, P, S, R or L.
pub fn is_maker_mode(b: u8) -> bool
    ensures { result ≡ member b maker_mode }
{
    match b {
        b'N' | b'P' | b'S' | b'R' | b'L' => MAKER_MODE_ARMS,
        _ => legal(b, masks::MAKER_MODE),
    }
}

const PARTICIPANT_STATE_ARMS: bool = MASKS[b'A' as usize]
    & MASKS[b'E' as usize]
    & MASKS[b'W' as usize]
    & MASKS[b'S' as usize]
    & MASKS[b'D' as usize]
    & masks::PARTICIPANT_STATE
    != 0;

// Whether a byte is a code of the participant's state: A, E, W, S or D.
pub fn is_participant_state(b: u8) -> bool
    ensures { result ≡ member b participant_state }
{
    match b {
        b'A' | b'E' | b'W' | b'S' | b'D' => PARTICIPANT_STATE_ARMS,
        _ => legal(b, masks::PARTICIPANT_STATE),
    }
}

const INTEREST_ARMS: bool = MASKS[b'B' as usize]
    & MASKS[b'S' as usize]
    & MASKS[b'A' as usize]
    & MASKS[b'N' as usize]
    & masks::INTEREST
    != 0;

// Whether a byte is a code of the interest flag: B, S, A or N.
pub fn is_interest(b: u8) -> bool
    ensures { result ≡ member b interest }
{
    match b {
        b'B' | b'S' | b'A' | b'N' => INTEREST_ARMS,
        _ => legal(b, masks::INTEREST),
    }
}

const CROSS_ARMS: bool = MASKS[b'O' as usize]
    & MASKS[b'C' as usize]
    & MASKS[b'H' as usize]
    & MASKS[b'I' as usize]
    & MASKS[b'A' as usize]
    & masks::CROSS
    != 0;

// Whether a byte is a code of the cross of a trade: O, C, H, I or A.
pub fn is_cross(b: u8) -> bool
    ensures { result ≡ member b cross }
{
    match b {
        b'O' | b'C' | b'H' | b'I' | b'A' => CROSS_ARMS,
        _ => legal(b, masks::CROSS),
    }
}

const CATEGORY_ARMS: bool = MASKS[b'Q' as usize]
    & MASKS[b'G' as usize]
    & MASKS[b'S' as usize]
    & MASKS[b'N' as usize]
    & MASKS[b'A' as usize]
    & MASKS[b'P' as usize]
    & MASKS[b'Z' as usize]
    & MASKS[b'V' as usize]
    & MASKS[b' ' as usize]
    & masks::CATEGORY
    != 0;

// Whether a byte is a code of the market category: one of its codes.
pub fn is_category(b: u8) -> bool
    ensures { result ≡ member b category }
{
    match b {
        b'Q' | b'G' | b'S' | b'N' | b'A' | b'P' | b'Z' | b'V' | b' ' => CATEGORY_ARMS,
        _ => legal(b, masks::CATEGORY),
    }
}

const STATUS_ARMS: bool = MASKS[b'N' as usize]
    & MASKS[b'D' as usize]
    & MASKS[b'E' as usize]
    & MASKS[b'Q' as usize]
    & MASKS[b'S' as usize]
    & MASKS[b'G' as usize]
    & MASKS[b'H' as usize]
    & MASKS[b'J' as usize]
    & MASKS[b'K' as usize]
    & MASKS[b'C' as usize]
    & MASKS[b' ' as usize]
    & masks::STATUS
    != 0;

// Whether a byte is a code of the financial status: one of its codes.
pub fn is_status(b: u8) -> bool
    ensures { result ≡ member b status }
{
    match b {
        b'N' | b'D' | b'E' | b'Q' | b'S' | b'G' | b'H' | b'J' | b'K' | b'C' | b' ' => STATUS_ARMS,
        _ => legal(b, masks::STATUS),
    }
}

const CLASS_ARMS: bool = MASKS[b'A' as usize]
    & MASKS[b'B' as usize]
    & MASKS[b'C' as usize]
    & MASKS[b'F' as usize]
    & MASKS[b'I' as usize]
    & MASKS[b'L' as usize]
    & MASKS[b'N' as usize]
    & MASKS[b'O' as usize]
    & MASKS[b'P' as usize]
    & MASKS[b'Q' as usize]
    & MASKS[b'R' as usize]
    & MASKS[b'S' as usize]
    & MASKS[b'T' as usize]
    & MASKS[b'U' as usize]
    & MASKS[b'V' as usize]
    & MASKS[b'W' as usize]
    & masks::CLASS
    != 0;

// Whether a byte is a code of the issue classification: one of its codes.
pub fn is_class(b: u8) -> bool
    ensures { result ≡ member b class }
{
    match b {
        b'A'
        | b'B'
        | b'C'
        | b'F'
        | b'I'
        | b'L'
        | b'N'
        | b'O'
        | b'P'
        | b'Q'
        | b'R'
        | b'S'
        | b'T'
        | b'U'
        | b'V'
        | b'W' => CLASS_ARMS,
        _ => legal(b, masks::CLASS),
    }
}

const AUTHENTICITY_ARMS: bool = MASKS[b'P' as usize] & MASKS[b'T' as usize] & masks::AUTHENTICITY
    != 0;

// Whether a byte is a code of production or test: P or T.
pub fn is_authenticity(b: u8) -> bool
    ensures { result ≡ member b authenticity }
{
    match b {
        b'P' | b'T' => AUTHENTICITY_ARMS,
        _ => legal(b, masks::AUTHENTICITY),
    }
}

const FLAG_ARMS: bool = MASKS[b'Y' as usize]
    & MASKS[b'N' as usize]
    & MASKS[b' ' as usize]
    & masks::FLAG
    != 0;

// Whether a byte is a code of the short sale or IPO flag: Y, N or space.
pub fn is_flag(b: u8) -> bool
    ensures { result ≡ member b flag }
{
    match b {
        b'Y' | b'N' | b' ' => FLAG_ARMS,
        _ => legal(b, masks::FLAG),
    }
}

const TIER_ARMS: bool = MASKS[b' ' as usize]
    & MASKS[b'1' as usize]
    & MASKS[b'2' as usize]
    & masks::TIER
    != 0;

// Whether a byte is a code of the LULD tier: space, 1 or 2.
pub fn is_tier(b: u8) -> bool
    ensures { result ≡ member b tier }
{
    match b {
        b' ' | b'1' | b'2' => TIER_ARMS,
        _ => legal(b, masks::TIER),
    }
}

const ETP_FLAG_ARMS: bool = MASKS[b'Y' as usize]
    & MASKS[b'N' as usize]
    & MASKS[b' ' as usize]
    & MASKS[b'M' as usize]
    & masks::ETP_FLAG
    != 0;

// Whether a byte is a code of the ETP flag: Y, N, space or M.
pub fn is_etp_flag(b: u8) -> bool
    ensures { result ≡ member b etp_flag }
{
    match b {
        b'Y' | b'N' | b' ' | b'M' => ETP_FLAG_ARMS,
        _ => legal(b, masks::ETP_FLAG),
    }
}

const EVENT_ARMS: bool = MASKS[b'O' as usize]
    & MASKS[b'S' as usize]
    & MASKS[b'Q' as usize]
    & MASKS[b'M' as usize]
    & MASKS[b'E' as usize]
    & MASKS[b'C' as usize]
    & masks::EVENT
    != 0;

// Whether a byte is a code of the system event: O, S, Q, M, E or C.
pub fn is_event(b: u8) -> bool
    ensures { result ≡ member b event }
{
    match b {
        b'O' | b'S' | b'Q' | b'M' | b'E' | b'C' => EVENT_ARMS,
        _ => legal(b, masks::EVENT),
    }
}

const LEVEL_ARMS: bool = MASKS[b'1' as usize]
    & MASKS[b'2' as usize]
    & MASKS[b'3' as usize]
    & masks::LEVEL
    != 0;

// Whether a byte is a code of the level breached: 1, 2 or 3.
pub fn is_level(b: u8) -> bool
    ensures { result ≡ member b level }
{
    match b {
        b'1' | b'2' | b'3' => LEVEL_ARMS,
        _ => legal(b, masks::LEVEL),
    }
}

const ACTION_ARMS: bool = MASKS[b'0' as usize]
    & MASKS[b'1' as usize]
    & MASKS[b'2' as usize]
    & masks::ACTION
    != 0;

// Whether a byte is a code of the Reg SHO action: 0, 1 or 2.
pub fn is_action(b: u8) -> bool
    ensures { result ≡ member b action }
{
    match b {
        b'0' | b'1' | b'2' => ACTION_ARMS,
        _ => legal(b, masks::ACTION),
    }
}

const MARKET_ARMS: bool = MASKS[b'Q' as usize]
    & MASKS[b'B' as usize]
    & MASKS[b'X' as usize]
    & masks::MARKET
    != 0;

// Whether a byte is a code of the market code: Q, B or X.
pub fn is_market(b: u8) -> bool
    ensures { result ≡ member b market }
{
    match b {
        b'Q' | b'B' | b'X' => MARKET_ARMS,
        _ => legal(b, masks::MARKET),
    }
}

const HALT_ARMS: bool = MASKS[b'H' as usize] & MASKS[b'T' as usize] & masks::HALT != 0;

// Whether a byte is a code of the action of an operational halt: H or T.
pub fn is_halt(b: u8) -> bool
    ensures { result ≡ member b halt }
{
    match b {
        b'H' | b'T' => HALT_ARMS,
        _ => legal(b, masks::HALT),
    }
}
