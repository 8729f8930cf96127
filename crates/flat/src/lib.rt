// What the stream answers, as numbers. Of a message they are the values that its definition has: the header's four, then the body's, which begin with
// the body's own tag, each code as its byte, and zeros behind. Who shows a message then needs none of its types.
#![tactic(auto)]

ghost use Rattle.std.specs.Prelude.{◌≡◌, ◌≤◌, ◌∷◌, length};
ghost use Rattle.stream.specs.Next.{next_of};
ghost use Rattle.stream.specs.Room.{room_of, room_buffer};
ghost use Rattle.stream.specs.Told.{told_of, failed_of};
ghost use Rattle.records.specs.declared.Body.TheVariants as Body·;
ghost use Rattle.records.specs.Values.{order_values, values};
ghost use Rattle.reader.specs.Window.{message_values};
ghost use Rattle.flat.specs.Flatten.{body_numbers, padded, step_flat};

use codes::{
    Authenticity, Code, CrossType, EtpFlag, EventCode, FinancialStatus, Flag, HaltAction,
    ImbalanceDirection, InterestFlag, IpoReleaseQualifier, IssueClassification, LevelBreached,
    LuldRefPriceTier, MarketCategory, MarketCode, MarketMakerMode, MarketParticipantState,
    RegShoAction, Side, TradingState, YesNo,
};
use format::Reading;
use records::{
    AddOrder, Body, CrossTrade, DirectListing, ImbalanceIndicator, IpoQuotingPeriod,
    MarketParticipantPosition, Message, NonCrossTrade, ReplaceOrder,
    RetailPriceImprovementIndicator, StockDirectory,
};
use stream::{Answer, Step, Stream};

// What a call of the stream answers: of a message its numbers; wants bytes; ready to be read into; nothing more; refused, with number and place.
#[derive(Clone, Copy)]
pub enum Said {
    Message([u64; 19]),
    Wants,
    Ready,
    Nothing,
    Refused(u8, usize),
}

// The stream's state after a call, and what the call answers.
#[derive(Clone, Copy)]
pub struct Flat {
    pub state: Stream,
    pub said: Said,
}

// A body's tag and its values, zeros behind them; the header's places are zero.
fn numbers<const N: usize>(tag: u8, values: [u64; N]) -> [u64; 19]
    requires { N ≤ 14 }
    ensures { result ≡ body_numbers (tag ∷ values.entry) }
{
    let mut v = [0u64; 19];
    v[4] = u64::from(tag);
    v[5..5 + N].copy_from_slice(&values);
    v
}

// A code's byte as a number.
fn byte<C: Code>(x: C::Name) -> u64
    ensures { result ≡ C.byte x }
{
    u64::from(C::byte(x))
}

// An add order is an A without a participant, an F with one.
fn add_order(x: AddOrder) -> [u64; 19]
    ensures { result ≡ body_numbers (order_values x x.mpid) }
{
    let side = byte::<Side>(x.side);
    let shares = u64::from(x.shares);
    let price = u64::from(x.price);
    match x.mpid {
        None => numbers(b'A', [x.reference, side, shares, x.stock, price]),
        Some(mpid) => numbers(
            b'F',
            [x.reference, side, shares, x.stock, price, u64::from(mpid)],
        ),
    }
}

fn cross_trade(x: CrossTrade) -> [u64; 19]
    ensures { result ≡ body_numbers (values (Body·.CrossTrade x)) }
{
    let price = u64::from(x.cross_price);
    let cross = byte::<CrossType>(x.cross_type);
    numbers(b'Q', [x.shares, x.stock, price, x.match_number, cross])
}

fn imbalance(x: ImbalanceIndicator) -> [u64; 19]
    ensures { result ≡ body_numbers (values (Body·.Imbalance x)) }
{
    numbers(
        b'I',
        [
            x.paired_shares,
            x.imbalance_shares,
            byte::<ImbalanceDirection>(x.imbalance_direction),
            x.stock,
            u64::from(x.far_price),
            u64::from(x.near_price),
            u64::from(x.current_ref_price),
            byte::<CrossType>(x.cross_type),
            u64::from(x.price_variation_indicator),
        ],
    )
}

fn ipo(x: IpoQuotingPeriod) -> [u64; 19]
    ensures { result ≡ body_numbers (values (Body·.IpoQuotingPeriod x)) }
{
    let time = u64::from(x.release_time);
    let qualifier = byte::<IpoReleaseQualifier>(x.release_qualifier);
    numbers(b'K', [x.stock, time, qualifier, u64::from(x.price)])
}

fn non_cross_trade(x: NonCrossTrade) -> [u64; 19]
    ensures { result ≡ body_numbers (values (Body·.NonCrossTrade x)) }
{
    let side = byte::<Side>(x.side);
    let shares = u64::from(x.shares);
    let price = u64::from(x.price);
    numbers(
        b'P',
        [x.reference, side, shares, x.stock, price, x.match_number],
    )
}

fn position(x: MarketParticipantPosition) -> [u64; 19]
    ensures { result ≡ body_numbers (values (Body·.ParticipantPosition x)) }
{
    let primary = byte::<YesNo>(x.primary_market_maker);
    let mode = byte::<MarketMakerMode>(x.market_maker_mode);
    let state = byte::<MarketParticipantState>(x.market_participant_state);
    numbers(b'L', [u64::from(x.mpid), x.stock, primary, mode, state])
}

fn replace_order(x: ReplaceOrder) -> [u64; 19]
    ensures { result ≡ body_numbers (values (Body·.ReplaceOrder x)) }
{
    let shares = u64::from(x.shares);
    let price = u64::from(x.price);
    numbers(b'U', [x.old_reference, x.new_reference, shares, price])
}

fn retail(x: RetailPriceImprovementIndicator) -> [u64; 19]
    ensures { result ≡ body_numbers (values (Body·.RetailPriceImprovementIndicator x)) }
{
    numbers(b'N', [x.stock, byte::<InterestFlag>(x.interest_flag)])
}

fn directory(x: StockDirectory) -> [u64; 19]
    ensures { result ≡ body_numbers (values (Body·.StockDirectory x)) }
{
    numbers(
        b'R',
        [
            x.stock,
            byte::<MarketCategory>(x.market_category),
            byte::<FinancialStatus>(x.financial_status),
            u64::from(x.round_lot_size),
            byte::<YesNo>(x.round_lots_only),
            byte::<IssueClassification>(x.issue_classification),
            u64::from(codes::subtype_code(x.issue_subtype)),
            byte::<Authenticity>(x.authenticity),
            byte::<Flag>(x.short_sale_threshold),
            byte::<Flag>(x.ipo_flag),
            byte::<LuldRefPriceTier>(x.luld_ref_price_tier),
            byte::<EtpFlag>(x.etp_flag),
            u64::from(x.etp_leverage_factor),
            byte::<YesNo>(x.inverse_indicator),
        ],
    )
}

fn direct_listing(x: DirectListing) -> [u64; 19]
    ensures { result ≡ body_numbers (values (Body·.DirectListing x)) }
{
    numbers(
        b'O',
        [
            x.stock,
            byte::<YesNo>(x.open_eligibility),
            u64::from(x.minimum_price),
            u64::from(x.maximum_price),
            u64::from(x.near_execution_price),
            x.near_execution_time,
            u64::from(x.lower_collar),
            u64::from(x.upper_collar),
        ],
    )
}

fn body_numbers(body: Body) -> [u64; 19]
    ensures { result ≡ body_numbers (values body) }
{
    match body {
        Body::AddOrder(x) => add_order(x),
        Body::CrossTrade(x) => cross_trade(x),
        Body::Imbalance(x) => imbalance(x),
        Body::IpoQuotingPeriod(x) => ipo(x),
        Body::NonCrossTrade(x) => non_cross_trade(x),
        Body::ParticipantPosition(x) => position(x),
        Body::ReplaceOrder(x) => replace_order(x),
        Body::RetailPriceImprovementIndicator(x) => retail(x),
        Body::StockDirectory(x) => directory(x),
        Body::Breach(x) => numbers(b'W', [byte::<LevelBreached>(x)]),
        Body::BrokenTrade { match_number } => numbers(b'B', [match_number]),
        Body::DeleteOrder { reference } => numbers(b'D', [reference]),
        Body::LULDAuctionCollar {
            stock,
            ref_price,
            upper_price,
            lower_price,
            extension,
        } => numbers(
            b'J',
            [
                stock,
                u64::from(ref_price),
                u64::from(upper_price),
                u64::from(lower_price),
                u64::from(extension),
            ],
        ),
        Body::MwcbDeclineLevel {
            level1,
            level2,
            level3,
        } => numbers(b'V', [level1, level2, level3]),
        Body::OrderCancelled {
            reference,
            cancelled,
        } => numbers(b'X', [reference, u64::from(cancelled)]),
        Body::OrderExecuted {
            reference,
            executed,
            match_number,
        } => numbers(b'E', [reference, u64::from(executed), match_number]),
        Body::OrderExecutedWithPrice {
            reference,
            executed,
            match_number,
            printable,
            price,
        } => numbers(
            b'C',
            [
                reference,
                u64::from(executed),
                match_number,
                byte::<YesNo>(printable),
                u64::from(price),
            ],
        ),
        Body::RegShoRestriction { stock, action } => numbers(
            b'Y',
            [stock, byte::<RegShoAction>(action)],
        ),
        Body::SystemEvent { event } => numbers(b'S', [byte::<EventCode>(event)]),
        Body::TradingAction {
            stock,
            trading_state,
            reserved,
            reason,
        } => numbers(
            b'H',
            [
                stock,
                byte::<TradingState>(trading_state),
                u64::from(reserved),
                u64::from(reason),
            ],
        ),
        Body::OperationalHalt {
            stock,
            market_code,
            action,
        } => numbers(
            b'h',
            [
                stock,
                byte::<MarketCode>(market_code),
                byte::<HaltAction>(action),
            ],
        ),
        Body::DirectListing(x) => direct_listing(x),
    }
}

// A message's numbers: its header's stand before its body's.
pub fn message(m: Message) -> [u64; 19]
    ensures { result ≡ padded 19 (message_values m) }
{
    let mut v = body_numbers(m.body);
    v[0] = u64::from(m.tag);
    v[1] = u64::from(m.stock_locate);
    v[2] = u64::from(m.tracking_number);
    v[3] = m.timestamp;
    v
}

// A step of a call: its state, and its answer, a message as numbers.
pub fn flatten(step: Step) -> Flat
    ensures { result ≡ step_flat step }
{
    let said = match step.answer {
        Answer::Message(m) => Said::Message(message(m)),
        Answer::Wants => Said::Wants,
        Answer::Ready => Said::Ready,
        Answer::Nothing => Said::Nothing,
        Answer::Refused(number, place) => Said::Refused(number, place),
    };
    Flat {
        state: step.state,
        said,
    }
}

// What the stream answers to next, by a reading, as numbers.
pub fn next(s: Stream, b: &[u8], reading: Reading) -> Flat
    ensures { result ≡ step_flat (next_of reading s b.now) }
{
    flatten(stream::next_of(s, b, reading))
}

// The same of make room. The buffer is as the stream leaves it.
pub fn make_room(s: Stream, buf: &mut [u8]) -> Flat
    ensures value { result ≡ step_flat (room_of s (length buf.old)) }
    ensures buf_after { buf.new ≡ room_buffer s buf.old }
{
    flatten(refill::make_room_of(s, buf))
}

// The same of told.
pub fn told(s: Stream, n: usize) -> Flat
    ensures { result ≡ step_flat (told_of s n) }
{
    flatten(refill::told_of(s, n))
}

// The same of told a failed read.
pub fn told_failed(s: Stream) -> Flat
    ensures { result ≡ step_flat (failed_of s) }
{
    flatten(refill::told_failed_of(s))
}
