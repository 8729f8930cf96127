// The bodies, written: one function for each of the 20 kinds, in the order of their tags, and for the two kinds that the later edition adds.
//
// Each puts its fields in order, from place 13 on, each where it fits. That the whole row fits is tested once, by the writer.
#![tactic(auto)]

ghost use Rattle.pen.specs.Encode.{PutBody};
ghost use Rattle.records.specs.Values.{values};
ghost use Rattle.put_bodies.specs.Mpids.{PutMpid};

use codes::{
    Authenticity, Code, CrossType, EtpFlag, EventCode, FinancialStatus, Flag, HaltAction,
    ImbalanceDirection, InterestFlag, IpoReleaseQualifier, IssueClassification, LevelBreached,
    LuldRefPriceTier, MarketCategory, MarketCode, MarketMakerMode, MarketParticipantState,
    RegShoAction, Side, TradingState, YesNo,
};
use records::{
    AddOrder, Body, CrossTrade, DirectListing, ImbalanceIndicator, IpoQuotingPeriod,
    MarketParticipantPosition, NonCrossTrade, Price4, Price8, ReplaceOrder,
    RetailPriceImprovementIndicator, StockDirectory, Text4, Text8,
};

// What only F has: the participant, at place 38.
fn put_mpid(buf: &mut [u8], mpid: Option<Text4>)
    ensures { PutMpid buf.old mpid buf.new }
{
    if let Some(v) = mpid {
        pen::set(buf, 38, v);
    }
}

// Puts the body of an add order: of F where there is a participant, else of A.
pub fn put_add_order(buf: &mut [u8], x: AddOrder)
    ensures { PutBody buf.old (values (Body.AddOrder x)) buf.new }
{
    pen::set(buf, 13, x.reference);
    pen::set(buf, 21, Side::byte(x.side));
    pen::set(buf, 22, x.shares);
    pen::set(buf, 26, x.stock);
    pen::set(buf, 34, x.price);
    put_mpid(buf, x.mpid);
}

// Puts the body of B, a broken trade.
pub fn put_broken_trade(buf: &mut [u8], match_number: u64)
    ensures { PutBody buf.old (values (Body.BrokenTrade match_number)) buf.new }
{
    pen::set(buf, 13, match_number);
}

// Puts the body of C, an order executed with a price.
pub fn put_order_executed_with_price(
    buf: &mut [u8],
    reference: u64,
    executed: u32,
    match_number: u64,
    printable: bool,
    price: Price4,
)
    ensures { PutBody buf.old (values (Body.OrderExecutedWithPrice reference executed match_number printable price)) buf.new }
{
    pen::set(buf, 13, reference);
    pen::set(buf, 21, executed);
    pen::set(buf, 25, match_number);
    pen::set(buf, 33, YesNo::byte(printable));
    pen::set(buf, 34, price);
}

// Puts the body of D, a deleted order.
pub fn put_delete_order(buf: &mut [u8], reference: u64)
    ensures { PutBody buf.old (values (Body.DeleteOrder reference)) buf.new }
{
    pen::set(buf, 13, reference);
}

// Puts the body of E, an executed order.
pub fn put_order_executed(buf: &mut [u8], reference: u64, executed: u32, match_number: u64)
    ensures { PutBody buf.old (values (Body.OrderExecuted reference executed match_number)) buf.new }
{
    pen::set(buf, 13, reference);
    pen::set(buf, 21, executed);
    pen::set(buf, 25, match_number);
}

// Puts the body of H, a trading action.
pub fn put_trading_action(
    buf: &mut [u8],
    stock: Text8,
    trading_state: TradingState,
    reserved: u8,
    reason: Text4,
)
    ensures { PutBody buf.old (values (Body.TradingAction stock trading_state reserved reason)) buf.new }
{
    pen::set(buf, 13, stock);
    pen::set(buf, 21, TradingState::byte(trading_state));
    pen::set(buf, 22, reserved);
    pen::set(buf, 23, reason);
}

// Puts the body of I, an imbalance.
pub fn put_imbalance_indicator(buf: &mut [u8], x: ImbalanceIndicator)
    ensures { PutBody buf.old (values (Body.Imbalance x)) buf.new }
{
    pen::set(buf, 13, x.paired_shares);
    pen::set(buf, 21, x.imbalance_shares);
    pen::set(buf, 29, ImbalanceDirection::byte(x.imbalance_direction));
    pen::set(buf, 30, x.stock);
    pen::set(buf, 38, x.far_price);
    pen::set(buf, 42, x.near_price);
    pen::set(buf, 46, x.current_ref_price);
    pen::set(buf, 50, CrossType::byte(x.cross_type));
    pen::set(buf, 51, x.price_variation_indicator);
}

// Puts the body of J, an auction collar.
pub fn put_luld_auction_collar(
    buf: &mut [u8],
    stock: Text8,
    ref_price: Price4,
    upper_price: Price4,
    lower_price: Price4,
    extension: u32,
)
    ensures { PutBody buf.old (values (Body.LULDAuctionCollar stock ref_price upper_price lower_price extension)) buf.new }
{
    pen::set(buf, 13, stock);
    pen::set(buf, 21, ref_price);
    pen::set(buf, 25, upper_price);
    pen::set(buf, 29, lower_price);
    pen::set(buf, 33, extension);
}

// Puts the body of K, an IPO quoting period.
pub fn put_ipo_quoting_period(buf: &mut [u8], x: IpoQuotingPeriod)
    ensures { PutBody buf.old (values (Body.IpoQuotingPeriod x)) buf.new }
{
    pen::set(buf, 13, x.stock);
    pen::set(buf, 21, x.release_time);
    pen::set(buf, 25, IpoReleaseQualifier::byte(x.release_qualifier));
    pen::set(buf, 26, x.price);
}

// Puts the body of L, a participant's position.
pub fn put_participant_position(buf: &mut [u8], x: MarketParticipantPosition)
    ensures { PutBody buf.old (values (Body.ParticipantPosition x)) buf.new }
{
    pen::set(buf, 13, x.mpid);
    pen::set(buf, 17, x.stock);
    pen::set(buf, 25, YesNo::byte(x.primary_market_maker));
    pen::set(buf, 26, MarketMakerMode::byte(x.market_maker_mode));
    pen::set(
        buf,
        27,
        MarketParticipantState::byte(x.market_participant_state),
    );
}

// Puts the body of N, a retail price improvement indicator.
pub fn put_retail_price_improvement_indicator(buf: &mut [u8], x: RetailPriceImprovementIndicator)
    ensures { PutBody buf.old (values (Body.RetailPriceImprovementIndicator x)) buf.new }
{
    pen::set(buf, 13, x.stock);
    pen::set(buf, 21, InterestFlag::byte(x.interest_flag));
}

// Puts the body of P, a trade that is no cross.
pub fn put_noncross_trade(buf: &mut [u8], x: NonCrossTrade)
    ensures { PutBody buf.old (values (Body.NonCrossTrade x)) buf.new }
{
    pen::set(buf, 13, x.reference);
    pen::set(buf, 21, Side::byte(x.side));
    pen::set(buf, 22, x.shares);
    pen::set(buf, 26, x.stock);
    pen::set(buf, 34, x.price);
    pen::set(buf, 38, x.match_number);
}

// Puts the body of Q, a cross trade.
pub fn put_cross_trade(buf: &mut [u8], x: CrossTrade)
    ensures { PutBody buf.old (values (Body.CrossTrade x)) buf.new }
{
    pen::set(buf, 13, x.shares);
    pen::set(buf, 21, x.stock);
    pen::set(buf, 29, x.cross_price);
    pen::set(buf, 33, x.match_number);
    pen::set(buf, 41, CrossType::byte(x.cross_type));
}

// Puts the body of R, a stock directory.
pub fn put_stock_directory(buf: &mut [u8], x: StockDirectory)
    ensures { PutBody buf.old (values (Body.StockDirectory x)) buf.new }
{
    pen::set(buf, 13, x.stock);
    pen::set(buf, 21, MarketCategory::byte(x.market_category));
    pen::set(buf, 22, FinancialStatus::byte(x.financial_status));
    pen::set(buf, 23, x.round_lot_size);
    pen::set(buf, 27, YesNo::byte(x.round_lots_only));
    pen::set(buf, 28, IssueClassification::byte(x.issue_classification));
    pen::set(buf, 29, codes::subtype_code(x.issue_subtype));
    pen::set(buf, 31, Authenticity::byte(x.authenticity));
    pen::set(buf, 32, Flag::byte(x.short_sale_threshold));
    pen::set(buf, 33, Flag::byte(x.ipo_flag));
    pen::set(buf, 34, LuldRefPriceTier::byte(x.luld_ref_price_tier));
    pen::set(buf, 35, EtpFlag::byte(x.etp_flag));
    pen::set(buf, 36, x.etp_leverage_factor);
    pen::set(buf, 40, YesNo::byte(x.inverse_indicator));
}

// Puts the body of S, a system event.
pub fn put_system_event(buf: &mut [u8], event: EventCode)
    ensures { PutBody buf.old (values (Body.SystemEvent event)) buf.new }
{
    pen::set(buf, 13, EventCode::byte(event));
}

// Puts the body of U, a replaced order.
pub fn put_replace_order(buf: &mut [u8], x: ReplaceOrder)
    ensures { PutBody buf.old (values (Body.ReplaceOrder x)) buf.new }
{
    pen::set(buf, 13, x.old_reference);
    pen::set(buf, 21, x.new_reference);
    pen::set(buf, 29, x.shares);
    pen::set(buf, 33, x.price);
}

// Puts the body of V, the decline levels.
pub fn put_mwcb_decline_level(buf: &mut [u8], level1: Price8, level2: Price8, level3: Price8)
    ensures { PutBody buf.old (values (Body.MwcbDeclineLevel level1 level2 level3)) buf.new }
{
    pen::set(buf, 13, level1);
    pen::set(buf, 21, level2);
    pen::set(buf, 29, level3);
}

// Puts the body of W, a breach of a level.
pub fn put_breach(buf: &mut [u8], x: LevelBreached)
    ensures { PutBody buf.old (values (Body.Breach x)) buf.new }
{
    pen::set(buf, 13, LevelBreached::byte(x));
}

// Puts the body of X, a cancelled order.
pub fn put_order_cancelled(buf: &mut [u8], reference: u64, cancelled: u32)
    ensures { PutBody buf.old (values (Body.OrderCancelled reference cancelled)) buf.new }
{
    pen::set(buf, 13, reference);
    pen::set(buf, 21, cancelled);
}

// Puts the body of Y, a Reg SHO restriction.
pub fn put_reg_sho_restriction(buf: &mut [u8], stock: Text8, action: RegShoAction)
    ensures { PutBody buf.old (values (Body.RegShoRestriction stock action)) buf.new }
{
    pen::set(buf, 13, stock);
    pen::set(buf, 21, RegShoAction::byte(action));
}

// Puts the body of h, an operational halt, of the later edition.
pub fn put_operational_halt(
    buf: &mut [u8],
    stock: Text8,
    market_code: MarketCode,
    action: HaltAction,
)
    ensures { PutBody buf.old (values (Body.OperationalHalt stock market_code action)) buf.new }
{
    pen::set(buf, 13, stock);
    pen::set(buf, 21, MarketCode::byte(market_code));
    pen::set(buf, 22, HaltAction::byte(action));
}

// Puts the body of O, a direct listing, of the later edition.
pub fn put_direct_listing(buf: &mut [u8], x: DirectListing)
    ensures { PutBody buf.old (values (Body.DirectListing x)) buf.new }
{
    pen::set(buf, 13, x.stock);
    pen::set(buf, 21, YesNo::byte(x.open_eligibility));
    pen::set(buf, 22, x.minimum_price);
    pen::set(buf, 26, x.maximum_price);
    pen::set(buf, 30, x.near_execution_price);
    pen::set(buf, 34, x.near_execution_time);
    pen::set(buf, 42, x.lower_collar);
    pen::set(buf, 46, x.upper_collar);
}
