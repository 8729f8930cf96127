// The code-set masks: a row for each of the 256 byte values, with the bit of each code set that the byte is legal in. The sets, and the order in
// which the bits count them, stand in specs/Codes of the crate `format`.

// The bit of each set, named by the fields that it is for. A, F, P: side.
pub const SIDE: u32 = 0x000001;

// C: printable; L: primary; O: open eligibility; R: lots only, inverse.
pub const YES_NO: u32 = 0x000002;

// H: state.
pub const TRADING_STATE: u32 = 0x000004;

// I: direction.
pub const DIRECTION: u32 = 0x000008;

// I: cross.
pub const IMBALANCE_CROSS: u32 = 0x000010;

// K: qualifier.
pub const QUALIFIER: u32 = 0x000020;

// L: mode.
pub const MAKER_MODE: u32 = 0x000040;

// L: state.
pub const PARTICIPANT_STATE: u32 = 0x000080;

// N: interest.
pub const INTEREST: u32 = 0x000100;

// Q: cross.
pub const CROSS: u32 = 0x000200;

// R: category.
pub const CATEGORY: u32 = 0x000400;

// R: status.
pub const STATUS: u32 = 0x000800;

// R: class.
pub const CLASS: u32 = 0x001000;

// R: authenticity.
pub const AUTHENTICITY: u32 = 0x002000;

// R: short sale, IPO.
pub const FLAG: u32 = 0x004000;

// R: LULD tier.
pub const TIER: u32 = 0x008000;

// R: ETP.
pub const ETP_FLAG: u32 = 0x010000;

// S: event.
pub const EVENT: u32 = 0x020000;

// W: level.
pub const LEVEL: u32 = 0x040000;

// Y: action.
pub const ACTION: u32 = 0x080000;

// h: market code.
pub const MARKET: u32 = 0x100000;

// h: action.
pub const HALT: u32 = 0x200000;

// The rows. A byte that no row names is no code.
pub const MASKS: [u32; 256] = [
    0,
    0,
    0,
    0,
    0,
    0,
    0,
    0,
    0,
    0,
    0,
    0,
    0,
    0,
    0,
    0,
    0,
    0,
    0,
    0,
    0,
    0,
    0,
    0,
    0,
    0,
    0,
    0,
    0,
    0,
    0,
    0,
    CATEGORY | STATUS | FLAG | TIER | ETP_FLAG, // space
    0,
    0,
    0,
    0,
    0,
    0,
    0,
    0,
    0,
    0,
    0,
    0,
    0,
    0,
    0,
    ACTION, // 0
    TIER | LEVEL | ACTION, // 1
    TIER | LEVEL | ACTION, // 2
    LEVEL, // 3
    0,
    0,
    0,
    0,
    0,
    0,
    0,
    0,
    0,
    0,
    0,
    0,
    0,
    IMBALANCE_CROSS | QUALIFIER | PARTICIPANT_STATE | INTEREST | CROSS | CATEGORY | CLASS, // A
    SIDE | DIRECTION | INTEREST | CLASS | MARKET, // B
    IMBALANCE_CROSS | QUALIFIER | CROSS | STATUS | CLASS | EVENT, // C
    PARTICIPANT_STATE | STATUS, // D
    PARTICIPANT_STATE | STATUS | EVENT, // E
    CLASS, // F
    CATEGORY | STATUS, // G
    TRADING_STATE | IMBALANCE_CROSS | CROSS | STATUS | HALT, // H
    CROSS | CLASS, // I
    STATUS, // J
    STATUS, // K
    MAKER_MODE | CLASS, // L
    ETP_FLAG | EVENT, // M
    YES_NO | DIRECTION | MAKER_MODE | INTEREST | CATEGORY | STATUS | CLASS | FLAG | ETP_FLAG, // N
    DIRECTION | IMBALANCE_CROSS | CROSS | CLASS | EVENT, // O
    TRADING_STATE | MAKER_MODE | CATEGORY | CLASS | AUTHENTICITY, // P
    TRADING_STATE | CATEGORY | STATUS | CLASS | EVENT | MARKET, // Q
    MAKER_MODE | CLASS, // R
    SIDE | DIRECTION
        | MAKER_MODE
        | PARTICIPANT_STATE
        | INTEREST
        | CATEGORY
        | STATUS
        | CLASS
        | EVENT, // S
    TRADING_STATE | CLASS | AUTHENTICITY | HALT, // T
    CLASS, // U
    CATEGORY | CLASS, // V
    PARTICIPANT_STATE | CLASS, // W
    MARKET, // X
    YES_NO | FLAG | ETP_FLAG, // Y
    CATEGORY, // Z
    0,
    0,
    0,
    0,
    0,
    0,
    0,
    0,
    0,
    0,
    0,
    0,
    0,
    0,
    0,
    0,
    0,
    0,
    0,
    0,
    0,
    0,
    0,
    0,
    0,
    0,
    0,
    0,
    0,
    0,
    0,
    0,
    0,
    0,
    0,
    0,
    0,
    0,
    0,
    0,
    0,
    0,
    0,
    0,
    0,
    0,
    0,
    0,
    0,
    0,
    0,
    0,
    0,
    0,
    0,
    0,
    0,
    0,
    0,
    0,
    0,
    0,
    0,
    0,
    0,
    0,
    0,
    0,
    0,
    0,
    0,
    0,
    0,
    0,
    0,
    0,
    0,
    0,
    0,
    0,
    0,
    0,
    0,
    0,
    0,
    0,
    0,
    0,
    0,
    0,
    0,
    0,
    0,
    0,
    0,
    0,
    0,
    0,
    0,
    0,
    0,
    0,
    0,
    0,
    0,
    0,
    0,
    0,
    0,
    0,
    0,
    0,
    0,
    0,
    0,
    0,
    0,
    0,
    0,
    0,
    0,
    0,
    0,
    0,
    0,
    0,
    0,
    0,
    0,
    0,
    0,
    0,
    0,
    0,
    0,
    0,
    0,
    0,
    0,
    0,
    0,
    0,
    0,
    0,
    0,
    0,
    0,
    0,
    0,
    0,
    0,
    0,
    0,
    0,
    0,
    0,
    0,
    0,
    0,
    0,
    0,
    0,
    0,
    0,
    0,
];
