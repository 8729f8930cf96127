// parse_message: the one judgement of a message. The header first, then the body that the tag names; a strict reading then asks whether a text strays that
// stands before anything refused.
#![tactic(auto)]

ghost use Rattle.std.specs.Prelude.{◌≡◌, cond, ◌&&◌, leb, min, length, MatchResult};
ghost use Rattle.format.specs.Ascii.{'O', 'h'};
ghost use Rattle.format.specs.Layout.{day};
ghost use Rattle.format.specs.Rows.{body_of, body_in, body_later, window};
ghost use Rattle.records.specs.Values.{body_m};
ghost use Rattle.format.specs.Strict.{stray_of};
ghost use Rattle.reader.specs.Window.{window_m};
ghost use Rattle.reader.specs.Strays.{reach_of, Strays};

use format::{Edition, Fault, Reading};
use records::{BodyRead, Message};

// What reading a window answers: a message and the bytes that it consumed; or why there is none.
pub type Window = Result<(Message, usize), Fault>;

// The two bodies that the later edition adds. It is called from two places, so that it is compiled by itself, and the reader, which is compiled into
// the loops above it, stays as small as it was.
fn later_body(s: &[u8], halt: bool) -> BodyRead
    ensures { body_m result ≡ body_of (cond halt 'h' 'O') s.now }
{
    if halt {
        return added::parse_operational_halt(s);
    }
    added::parse_direct_listing(s)
}

// The body of a tag that the old edition does not have: unknown there, and in the later edition unless it is h or O. Nobody else looks at the edition.
fn parse_later(s: &[u8], tag: u8, reading: Reading) -> BodyRead
    ensures { body_m result ≡ body_later reading.edition tag s.now }
{
    let edition = reading.edition;
    match edition {
        Edition::Old => Err(format::refused(1, 2)),
        Edition::Later => match tag {
            b'h' => later_body(s, true),
            b'O' => later_body(s, false),
            _ => Err(format::refused(1, 2)),
        },
    }
}

// The body that a tag names. A function that is called from one place is compiled into its caller: so each body has one arm here, and A and F share theirs.
fn parse_body(s: &[u8], tag: u8, reading: Reading) -> BodyRead
    ensures { body_m result ≡ body_in reading tag s.now }
{
    match tag {
        b'A' | b'F' => orders::parse_add_order(s, tag == b'F'),
        b'B' => orders::parse_broken_trade(s),
        b'D' => orders::parse_delete_order(s),
        b'C' => orders::parse_order_executed_with_price(s),
        b'E' => orders::parse_order_executed(s),
        b'H' => notices::parse_trading_action(s),
        b'I' => orders::parse_imbalance_indicator(s),
        b'J' => notices::parse_luld_auction_collar(s),
        b'K' => notices::parse_ipo_quoting_period(s),
        b'L' => notices::parse_participant_position(s),
        b'N' => notices::parse_retail_price_improvement_indicator(s),
        b'P' => orders::parse_noncross_trade(s),
        b'Q' => orders::parse_cross_trade(s),
        b'R' => notices::parse_stock_directory(s),
        b'S' => notices::parse_system_event(s),
        b'U' => orders::parse_replace_order(s),
        b'V' => notices::parse_mwcb_decline_level(s),
        b'W' => notices::parse_breach(s),
        b'X' => orders::parse_order_cancelled(s),
        b'Y' => notices::parse_reg_sho_restriction(s),
        _ => parse_later(s, tag, reading),
    }
}

// Whether a time is refused: in a strict reading, from a day on.
fn late(strict: bool, timestamp: u64) -> bool
    ensures { result ≡ (strict && leb day timestamp) }
{
    strict && timestamp >= format::DAY
}

// How far a body was read that has no value: to the field that is refused, and else through all that is there.
fn reach(e: Fault, end: usize) -> usize
    ensures { result ≡ reach_of e end }
{
    match e {
        Fault::Short => end,
        Fault::Refused(r) => r.place,
    }
}

// Refuses the first text of a body that strays, of those that end no later than the limit. The reader asks it behind each answer of the body: so it is compiled by
// itself, and the ordinary reading pays for one test.
fn unstrayed(s: &[u8], tag: u8, limit: usize) -> Result<(), Fault>
    ensures { MatchResult result (λ _. stray_of tag s.now (min limit (length s.now)) ≡ 0) (λ e. Strays (stray_of tag s.now (min limit (length s.now))) e) }
{
    let p = strays::stray(s, tag, limit);
    if p != 0 {
        return Err(format::refused(5, p));
    }
    Ok(())
}

// Reads one window by a reading: its message and the bytes consumed, or why there is none: it is incomplete, or the first bad field's number and place.
pub fn parse_message(s: &[u8], reading: Reading) -> Window
    ensures { window_m result ≡ window reading s.now }
{
    let Some(header) = format::read_header(s) else {
        return Err(Fault::Short);
    };
    let tag = header.tag;
    let strict = reading.strict;
    if late(strict, header.timestamp) {
        return Err(format::refused(4, 7));
    }
    match parse_body(s, tag, reading) {
        Ok((body, consumed)) => {
            if strict {
                unstrayed(s, tag, s.len())?;
            }
            let message = Message {
                tag,
                stock_locate: header.stock_locate,
                tracking_number: header.tracking_number,
                timestamp: header.timestamp,
                body,
            };
            Ok((message, consumed))
        }
        Err(e) => {
            if strict {
                unstrayed(s, tag, reach(e, s.len()))?;
            }
            Err(e)
        }
    }
}
