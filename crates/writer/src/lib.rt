// The writer: a record goes to the front of a lent buffer, and later bytes stay. What is refused, in which order, and what the bytes are, stands
// in specs/Writing; on a refusal the buffer is as it was.
#![tactic(auto)]

ghost use Rattle.std.specs.Prelude.{◌≡◌, ◌&&◌, ◌∷◌, [], ◌^◌, ◌<◌, length, eqb};
ghost use Rattle.format.specs.Ascii.{'I'};
ghost use Rattle.format.specs.Rows.{header};
ghost use Rattle.codes.specs.Names.{cross_byte};
ghost use Rattle.pen.specs.Encode.{PutRow};
ghost use Rattle.records.specs.Values.{values};
ghost use Rattle.writer.specs.Writing.{checked_of, mpid_tag, mpid_fine, written_of, buffer_after, FieldsFit};

use codes::{Code, CrossType};
use format::Reading;
use records::{Body, Message, Text4};

// Why a record is not written.
#[derive(Clone, Copy, Debug, PartialEq, Eq)]
pub enum WriteError {
    // 40: tag and body kind disagree, or the reading has no such tag
    Kind,
    // 41: a timestamp of 2^48 or more
    Time,
    // 42: a text that is not UTF-8
    Text,
    // 43: Intraday in an imbalance record
    Intraday,
    // 44: the buffer is shorter than 2 + size
    Room,
}

// The number that a refusal has in the document.
impl From<WriteError> for u8 {
    ghost use Rattle.std.specs.Prelude.{◌≡◌};
    ghost use Rattle.writer.specs.Writing.{number_of};

    ghost from_gives = { λ e n. n ≡ number_of e };

    fn from(e: WriteError) -> u8 {
        match e {
            WriteError::Kind => 40,
            WriteError::Time => 41,
            WriteError::Text => 42,
            WriteError::Intraday => 43,
            WriteError::Room => 44,
        }
    }
}

// Written, and how many bytes; or why not.
pub type Written = Result<usize, WriteError>;

// What is looked at before a body is written: the tag that it belongs to, whether its texts are UTF-8, whether it is an imbalance record with
// the cross Intraday.
#[derive(Clone, Copy)]
pub struct Checked {
    pub tag: u8,
    pub texts: bool,
    pub intraday: bool,
}

// A body that has no texts and is no imbalance record, but for its tag.
const FINE: Checked = Checked {
    tag: 0,
    texts: true,
    intraday: false,
};

fn mpid_tag(mpid: Option<Text4>) -> u8
    ensures { result ≡ mpid_tag mpid }
{
    if mpid.is_none() { b'A' } else { b'F' }
}

fn is_mpid(mpid: Option<Text4>) -> bool
    ensures { result ≡ mpid_fine mpid }
{
    match mpid {
        None => true,
        Some(v) => pen::is_text(v),
    }
}

fn both(a: bool, b: bool) -> bool
    ensures { result ≡ (a && b) }
{
    if a { b } else { false }
}

fn is_intraday(x: CrossType) -> bool
    ensures { result ≡ eqb (cross_byte x) 'I' }
{
    CrossType::byte(x) == b'I'
}

// What is looked at before a body is written.
fn check_body(b: Body) -> Checked
    ensures { result ≡ checked_of (values b) }
{
    match b {
        Body::AddOrder(x) => {
            Checked {
                tag: mpid_tag(x.mpid),
                texts: both(pen::is_text(x.stock), is_mpid(x.mpid)),
                ..FINE
            }
        }
        Body::Breach(_) => Checked { tag: b'W', ..FINE },
        Body::BrokenTrade { .. } => Checked { tag: b'B', ..FINE },
        Body::CrossTrade(x) => Checked {
            tag: b'Q',
            texts: pen::is_text(x.stock),
            ..FINE
        },
        Body::DeleteOrder { .. } => Checked { tag: b'D', ..FINE },
        Body::Imbalance(x) => {
            let cross_type = x.cross_type;
            Checked {
                tag: b'I',
                texts: pen::is_text(x.stock),
                intraday: is_intraday(cross_type),
            }
        }
        Body::IpoQuotingPeriod(x) => Checked {
            tag: b'K',
            texts: pen::is_text(x.stock),
            ..FINE
        },
        Body::LULDAuctionCollar { stock, .. } => Checked {
            tag: b'J',
            texts: pen::is_text(stock),
            ..FINE
        },
        Body::MwcbDeclineLevel { .. } => Checked { tag: b'V', ..FINE },
        Body::NonCrossTrade(x) => Checked {
            tag: b'P',
            texts: pen::is_text(x.stock),
            ..FINE
        },
        Body::OrderCancelled { .. } => Checked { tag: b'X', ..FINE },
        Body::OrderExecuted { .. } => Checked { tag: b'E', ..FINE },
        Body::OrderExecutedWithPrice { .. } => Checked { tag: b'C', ..FINE },
        Body::ParticipantPosition(x) => Checked {
            tag: b'L',
            texts: both(pen::is_text(x.mpid), pen::is_text(x.stock)),
            ..FINE
        },
        Body::RegShoRestriction { stock, .. } => Checked {
            tag: b'Y',
            texts: pen::is_text(stock),
            ..FINE
        },
        Body::ReplaceOrder(_) => Checked { tag: b'U', ..FINE },
        Body::RetailPriceImprovementIndicator(x) => Checked {
            tag: b'N',
            texts: pen::is_text(x.stock),
            ..FINE
        },
        Body::StockDirectory(x) => Checked {
            tag: b'R',
            texts: pen::is_text(x.stock),
            ..FINE
        },
        Body::SystemEvent { .. } => Checked { tag: b'S', ..FINE },
        Body::TradingAction { stock, reason, .. } => Checked {
            tag: b'H',
            texts: both(pen::is_text(stock), pen::is_text(reason)),
            ..FINE
        },
        Body::OperationalHalt { stock, .. } => Checked {
            tag: b'h',
            texts: pen::is_text(stock),
            ..FINE
        },
        Body::DirectListing(x) => Checked {
            tag: b'O',
            texts: pen::is_text(x.stock),
            ..FINE
        },
    }
}

// The 13 bytes before a body.
fn put_header(buf: &mut [u8], size: u8, tag: u8, locate: u16, tracking: u16, time: u64)
    requires { time < 256 ^ 6 }
    ensures { PutRow buf.old 0 header (size ∷ tag ∷ locate ∷ tracking ∷ time ∷ []) buf.new }
{
    pen::set(buf, 0, size as u16);
    pen::set(buf, 2, tag);
    pen::set(buf, 3, locate);
    pen::set(buf, 5, tracking);
    pen::set_u48(buf, 7, time);
}

// Puts the record at the front of the buffer, by a reading, and answers how many bytes it took, or refuses and leaves the buffer as it was.
pub fn write(m: Message, buf: &mut [u8], reading: Reading) -> Written
    ensures value { result ≡ written_of reading m (length buf.old) }
    ensures buf_after { buf.new ≡ buffer_after result m buf.old }
    ensures fields_fit { FieldsFit result m }
{
    let tag = m.tag;
    let time = m.timestamp;
    let body = m.body;
    let own = check_body(body);
    if tag != own.tag {
        return Err(WriteError::Kind);
    }
    let size = tables::size_of_tag(tag, reading);
    if size == 0 {
        return Err(WriteError::Kind);
    }
    let late = 0x1000000000000 <= time;
    let garbled = !own.texts;
    if late {
        return Err(WriteError::Time);
    }
    if garbled {
        return Err(WriteError::Text);
    }
    if own.intraday {
        return Err(WriteError::Intraday);
    }
    let n = 2 + size as usize;
    if buf.len() < n {
        return Err(WriteError::Room);
    }
    put_header(buf, size, tag, m.stock_locate, m.tracking_number, time);
    put_any::put_body(buf, body);
    Ok(n)
}
