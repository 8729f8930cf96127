// The bodies about stocks, participants and the market: H, J, K, L, N, R, S, V, W, Y.
//
// Each takes its fields in order, from place 13 of a window on, and answers the body with the place behind it. The first field that has no value ends the
// body: then its fault is answered.
#![tactic(auto)]

ghost use Rattle.std.specs.Prelude.{◌≡◌};
ghost use Rattle.format.specs.Ascii.{'H', 'J', 'K', 'L', 'N', 'R', 'S', 'V', 'W', 'Y'};
ghost use Rattle.format.specs.Rows.{body_of};
ghost use Rattle.records.specs.Values.{body_m};

use codes::{
    Authenticity, EtpFlag, EventCode, FinancialStatus, Flag, InterestFlag, IpoReleaseQualifier,
    IssueClassification, LevelBreached, LuldRefPriceTier, MarketCategory, MarketMakerMode,
    MarketParticipantState, RegShoAction, TradingState, YesNo,
};
use records::{
    Body, BodyRead, IpoQuotingPeriod, MarketParticipantPosition, RetailPriceImprovementIndicator,
    StockDirectory, Text4, Text8,
};

// The body of H, a trading action.
pub fn parse_trading_action(s: &[u8]) -> BodyRead
    ensures { body_m result ≡ body_of 'H' s.now }
{
    let stock = format::text_at::<Text8>(s, 13)?;
    let trading_state = codes::code_at::<TradingState>(s, 21)?;
    let reserved = format::number_at::<u8>(s, 22)?;
    let reason = format::text_at::<Text4>(s, 23)?;
    Ok((
        Body::TradingAction {
            stock,
            trading_state,
            reserved,
            reason,
        },
        tables::END_H,
    ))
}

// The body of J, an auction collar.
pub fn parse_luld_auction_collar(s: &[u8]) -> BodyRead
    ensures { body_m result ≡ body_of 'J' s.now }
{
    let stock = format::text_at::<Text8>(s, 13)?;
    let ref_price = format::number_at::<u32>(s, 21)?;
    let upper_price = format::number_at::<u32>(s, 25)?;
    let lower_price = format::number_at::<u32>(s, 29)?;
    let extension = format::number_at::<u32>(s, 33)?;
    Ok((
        Body::LULDAuctionCollar {
            stock,
            ref_price,
            upper_price,
            lower_price,
            extension,
        },
        tables::END_J,
    ))
}

// The body of K, an IPO quoting period.
pub fn parse_ipo_quoting_period(s: &[u8]) -> BodyRead
    ensures { body_m result ≡ body_of 'K' s.now }
{
    let stock = format::text_at::<Text8>(s, 13)?;
    let release_time = format::number_at::<u32>(s, 21)?;
    let release_qualifier = codes::code_at::<IpoReleaseQualifier>(s, 25)?;
    let price = format::number_at::<u32>(s, 26)?;
    Ok((
        Body::IpoQuotingPeriod(IpoQuotingPeriod {
            stock,
            release_time,
            release_qualifier,
            price,
        }),
        tables::END_K,
    ))
}

// The body of L, a participant's position.
pub fn parse_participant_position(s: &[u8]) -> BodyRead
    ensures { body_m result ≡ body_of 'L' s.now }
{
    let mpid = format::text_at::<Text4>(s, 13)?;
    let stock = format::text_at::<Text8>(s, 17)?;
    let primary_market_maker = codes::code_at::<YesNo>(s, 25)?;
    let market_maker_mode = codes::code_at::<MarketMakerMode>(s, 26)?;
    let market_participant_state = codes::code_at::<MarketParticipantState>(s, 27)?;
    Ok((
        Body::ParticipantPosition(MarketParticipantPosition {
            mpid,
            stock,
            primary_market_maker,
            market_maker_mode,
            market_participant_state,
        }),
        tables::END_L,
    ))
}

// The body of N, a retail price improvement indicator.
pub fn parse_retail_price_improvement_indicator(s: &[u8]) -> BodyRead
    ensures { body_m result ≡ body_of 'N' s.now }
{
    let stock = format::text_at::<Text8>(s, 13)?;
    let interest_flag = codes::code_at::<InterestFlag>(s, 21)?;
    Ok((
        Body::RetailPriceImprovementIndicator(RetailPriceImprovementIndicator {
            stock,
            interest_flag,
        }),
        tables::END_N,
    ))
}

// The body of R, a stock directory.
pub fn parse_stock_directory(s: &[u8]) -> BodyRead
    ensures { body_m result ≡ body_of 'R' s.now }
{
    let stock = format::text_at::<Text8>(s, 13)?;
    let market_category = codes::code_at::<MarketCategory>(s, 21)?;
    let financial_status = codes::code_at::<FinancialStatus>(s, 22)?;
    let round_lot_size = format::number_at::<u32>(s, 23)?;
    let round_lots_only = codes::code_at::<YesNo>(s, 27)?;
    let issue_classification = codes::code_at::<IssueClassification>(s, 28)?;
    let issue_subtype = codes::subtype_at(s, 29)?;
    let authenticity = codes::code_at::<Authenticity>(s, 31)?;
    let short_sale_threshold = codes::code_at::<Flag>(s, 32)?;
    let ipo_flag = codes::code_at::<Flag>(s, 33)?;
    let luld_ref_price_tier = codes::code_at::<LuldRefPriceTier>(s, 34)?;
    let etp_flag = codes::code_at::<EtpFlag>(s, 35)?;
    let etp_leverage_factor = format::number_at::<u32>(s, 36)?;
    let inverse_indicator = codes::code_at::<YesNo>(s, 40)?;
    Ok((
        Body::StockDirectory(StockDirectory {
            stock,
            market_category,
            financial_status,
            round_lot_size,
            round_lots_only,
            issue_classification,
            issue_subtype,
            authenticity,
            short_sale_threshold,
            ipo_flag,
            luld_ref_price_tier,
            etp_flag,
            etp_leverage_factor,
            inverse_indicator,
        }),
        tables::END_R,
    ))
}

// The body of S, a system event.
pub fn parse_system_event(s: &[u8]) -> BodyRead
    ensures { body_m result ≡ body_of 'S' s.now }
{
    let event = codes::code_at::<EventCode>(s, 13)?;
    Ok((Body::SystemEvent { event }, tables::END_S))
}

// The body of V, the decline levels.
pub fn parse_mwcb_decline_level(s: &[u8]) -> BodyRead
    ensures { body_m result ≡ body_of 'V' s.now }
{
    let level1 = format::number_at::<u64>(s, 13)?;
    let level2 = format::number_at::<u64>(s, 21)?;
    let level3 = format::number_at::<u64>(s, 29)?;
    Ok((
        Body::MwcbDeclineLevel {
            level1,
            level2,
            level3,
        },
        tables::END_V,
    ))
}

// The body of W, a breach of a level.
pub fn parse_breach(s: &[u8]) -> BodyRead
    ensures { body_m result ≡ body_of 'W' s.now }
{
    let level = codes::code_at::<LevelBreached>(s, 13)?;
    Ok((Body::Breach(level), tables::END_W))
}

// The body of Y, a Reg SHO restriction.
pub fn parse_reg_sho_restriction(s: &[u8]) -> BodyRead
    ensures { body_m result ≡ body_of 'Y' s.now }
{
    let stock = format::text_at::<Text8>(s, 13)?;
    let action = codes::code_at::<RegShoAction>(s, 21)?;
    Ok((Body::RegShoRestriction { stock, action }, tables::END_Y))
}
