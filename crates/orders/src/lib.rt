// The bodies of orders, trades and crosses: A and F, B, C, D, E, I, P, Q, U, X.
//
// Each takes its fields in order, from place 13 of a window on, and answers the body with the place behind it. The first field that has no value ends the
// body: then its fault is answered.
#![tactic(auto)]

ghost use Rattle.std.specs.Prelude.{◌≡◌, cond};
ghost use Rattle.format.specs.Ascii.{'A', 'B', 'C', 'D', 'E', 'F', 'I', 'P', 'Q', 'U', 'X'};
ghost use Rattle.format.specs.Rows.{body_of};
ghost use Rattle.records.specs.Values.{body_m};

use codes::{CrossType, ImbalanceCross, ImbalanceDirection, Side, YesNo};
use records::{
    AddOrder, Body, BodyRead, CrossTrade, ImbalanceIndicator, NonCrossTrade, ReplaceOrder, Text4,
    Text8,
};

// The body of an add order: of F with attribution, of A without.
pub fn parse_add_order(s: &[u8], attribution: bool) -> BodyRead
    ensures { body_m result ≡ body_of (cond attribution 'F' 'A') s.now }
{
    let reference = format::number_at::<u64>(s, 13)?;
    let side = codes::code_at::<Side>(s, 21)?;
    let shares = format::number_at::<u32>(s, 22)?;
    let stock = format::text_at::<Text8>(s, 26)?;
    let price = format::number_at::<u32>(s, 34)?;
    if attribution {
        let mpid = format::text_at::<Text4>(s, 38)?;
        return Ok((
            Body::AddOrder(AddOrder {
                reference,
                side,
                shares,
                stock,
                price,
                mpid: Some(mpid),
            }),
            tables::END_F,
        ));
    }
    Ok((
        Body::AddOrder(AddOrder {
            reference,
            side,
            shares,
            stock,
            price,
            mpid: None,
        }),
        tables::END_A,
    ))
}

// The body of B, a broken trade.
pub fn parse_broken_trade(s: &[u8]) -> BodyRead
    ensures { body_m result ≡ body_of 'B' s.now }
{
    let match_number = format::number_at::<u64>(s, 13)?;
    Ok((Body::BrokenTrade { match_number }, tables::END_B))
}

// The body of C, an order executed with a price.
pub fn parse_order_executed_with_price(s: &[u8]) -> BodyRead
    ensures { body_m result ≡ body_of 'C' s.now }
{
    let reference = format::number_at::<u64>(s, 13)?;
    let executed = format::number_at::<u32>(s, 21)?;
    let match_number = format::number_at::<u64>(s, 25)?;
    let printable = codes::code_at::<YesNo>(s, 33)?;
    let price = format::number_at::<u32>(s, 34)?;
    Ok((
        Body::OrderExecutedWithPrice {
            reference,
            executed,
            match_number,
            printable,
            price,
        },
        tables::END_C,
    ))
}

// The body of D, a deleted order.
pub fn parse_delete_order(s: &[u8]) -> BodyRead
    ensures { body_m result ≡ body_of 'D' s.now }
{
    let reference = format::number_at::<u64>(s, 13)?;
    Ok((Body::DeleteOrder { reference }, tables::END_D))
}

// The body of E, an executed order.
pub fn parse_order_executed(s: &[u8]) -> BodyRead
    ensures { body_m result ≡ body_of 'E' s.now }
{
    let reference = format::number_at::<u64>(s, 13)?;
    let executed = format::number_at::<u32>(s, 21)?;
    let match_number = format::number_at::<u64>(s, 25)?;
    Ok((
        Body::OrderExecuted {
            reference,
            executed,
            match_number,
        },
        tables::END_E,
    ))
}

// The body of I, an imbalance.
pub fn parse_imbalance_indicator(s: &[u8]) -> BodyRead
    ensures { body_m result ≡ body_of 'I' s.now }
{
    let paired_shares = format::number_at::<u64>(s, 13)?;
    let imbalance_shares = format::number_at::<u64>(s, 21)?;
    let imbalance_direction = codes::code_at::<ImbalanceDirection>(s, 29)?;
    let stock = format::text_at::<Text8>(s, 30)?;
    let far_price = format::number_at::<u32>(s, 38)?;
    let near_price = format::number_at::<u32>(s, 42)?;
    let current_ref_price = format::number_at::<u32>(s, 46)?;
    let cross_type = codes::code_at::<ImbalanceCross>(s, 50)?;
    let price_variation_indicator = format::number_at::<u8>(s, 51)?;
    Ok((
        Body::Imbalance(ImbalanceIndicator {
            paired_shares,
            imbalance_shares,
            imbalance_direction,
            stock,
            far_price,
            near_price,
            current_ref_price,
            cross_type,
            price_variation_indicator,
        }),
        tables::END_I,
    ))
}

// The body of P, a trade that is no cross.
pub fn parse_noncross_trade(s: &[u8]) -> BodyRead
    ensures { body_m result ≡ body_of 'P' s.now }
{
    let reference = format::number_at::<u64>(s, 13)?;
    let side = codes::code_at::<Side>(s, 21)?;
    let shares = format::number_at::<u32>(s, 22)?;
    let stock = format::text_at::<Text8>(s, 26)?;
    let price = format::number_at::<u32>(s, 34)?;
    let match_number = format::number_at::<u64>(s, 38)?;
    Ok((
        Body::NonCrossTrade(NonCrossTrade {
            reference,
            side,
            shares,
            stock,
            price,
            match_number,
        }),
        tables::END_P,
    ))
}

// The body of Q, a cross trade.
pub fn parse_cross_trade(s: &[u8]) -> BodyRead
    ensures { body_m result ≡ body_of 'Q' s.now }
{
    let shares = format::number_at::<u64>(s, 13)?;
    let stock = format::text_at::<Text8>(s, 21)?;
    let cross_price = format::number_at::<u32>(s, 29)?;
    let match_number = format::number_at::<u64>(s, 33)?;
    let cross_type = codes::code_at::<CrossType>(s, 41)?;
    Ok((
        Body::CrossTrade(CrossTrade {
            shares,
            stock,
            cross_price,
            match_number,
            cross_type,
        }),
        tables::END_Q,
    ))
}

// The body of U, a replaced order.
pub fn parse_replace_order(s: &[u8]) -> BodyRead
    ensures { body_m result ≡ body_of 'U' s.now }
{
    let old_reference = format::number_at::<u64>(s, 13)?;
    let new_reference = format::number_at::<u64>(s, 21)?;
    let shares = format::number_at::<u32>(s, 29)?;
    let price = format::number_at::<u32>(s, 33)?;
    Ok((
        Body::ReplaceOrder(ReplaceOrder {
            old_reference,
            new_reference,
            shares,
            price,
        }),
        tables::END_U,
    ))
}

// The body of X, a cancelled order.
pub fn parse_order_cancelled(s: &[u8]) -> BodyRead
    ensures { body_m result ≡ body_of 'X' s.now }
{
    let reference = format::number_at::<u64>(s, 13)?;
    let cancelled = format::number_at::<u32>(s, 21)?;
    Ok((
        Body::OrderCancelled {
            reference,
            cancelled,
        },
        tables::END_X,
    ))
}
