// Any body, written: it goes to the function of its kind. It is apart from the writer, whose must-fail edits check their whole crate again.
#![tactic(auto)]

ghost use Rattle.pen.specs.Encode.{PutBody};
ghost use Rattle.records.specs.Values.{values};

use records::Body;

// Puts the body's fields in order, from place 13 on, each where it fits.
pub fn put_body(buf: &mut [u8], b: Body)
    ensures { PutBody buf.old (values b) buf.new }
{
    match b {
        Body::AddOrder(x) => put_bodies::put_add_order(buf, x),
        Body::Breach(x) => put_bodies::put_breach(buf, x),
        Body::BrokenTrade { match_number } => put_bodies::put_broken_trade(buf, match_number),
        Body::CrossTrade(x) => put_bodies::put_cross_trade(buf, x),
        Body::DeleteOrder { reference } => put_bodies::put_delete_order(buf, reference),
        Body::Imbalance(x) => put_bodies::put_imbalance_indicator(buf, x),
        Body::IpoQuotingPeriod(x) => put_bodies::put_ipo_quoting_period(buf, x),
        Body::LULDAuctionCollar {
            stock,
            ref_price,
            upper_price,
            lower_price,
            extension,
        } => put_bodies::put_luld_auction_collar(
            buf,
            stock,
            ref_price,
            upper_price,
            lower_price,
            extension,
        ),
        Body::MwcbDeclineLevel {
            level1,
            level2,
            level3,
        } => put_bodies::put_mwcb_decline_level(buf, level1, level2, level3),
        Body::NonCrossTrade(x) => put_bodies::put_noncross_trade(buf, x),
        Body::OrderCancelled {
            reference,
            cancelled,
        } => put_bodies::put_order_cancelled(buf, reference, cancelled),
        Body::OrderExecuted {
            reference,
            executed,
            match_number,
        } => put_bodies::put_order_executed(buf, reference, executed, match_number),
        Body::OrderExecutedWithPrice {
            reference,
            executed,
            match_number,
            printable,
            price,
        } => put_bodies::put_order_executed_with_price(
            buf,
            reference,
            executed,
            match_number,
            printable,
            price,
        ),
        Body::ParticipantPosition(x) => put_bodies::put_participant_position(buf, x),
        Body::RegShoRestriction { stock, action } => put_bodies::put_reg_sho_restriction(
            buf, stock, action,
        ),
        Body::ReplaceOrder(x) => put_bodies::put_replace_order(buf, x),
        Body::RetailPriceImprovementIndicator(x) =>
            put_bodies::put_retail_price_improvement_indicator(buf, x),
        Body::StockDirectory(x) => put_bodies::put_stock_directory(buf, x),
        Body::SystemEvent { event } => put_bodies::put_system_event(buf, event),
        Body::TradingAction {
            stock,
            trading_state,
            reserved,
            reason,
        } => put_bodies::put_trading_action(buf, stock, trading_state, reserved, reason),
        Body::OperationalHalt {
            stock,
            market_code,
            action,
        } => put_bodies::put_operational_halt(buf, stock, market_code, action),
        Body::DirectListing(x) => put_bodies::put_direct_listing(buf, x),
    }
}
