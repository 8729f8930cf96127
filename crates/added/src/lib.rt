// The bodies that the later edition adds: h and O.
//
// Each takes its fields in order, from place 13 of a window on, and answers the body with the place behind it. The first field that has no value ends the
// body: then its fault is answered.
#![tactic(auto)]

ghost use Rattle.std.specs.Prelude.{◌≡◌};
ghost use Rattle.format.specs.Ascii.{'O', 'h'};
ghost use Rattle.format.specs.Rows.{body_of};
ghost use Rattle.records.specs.Values.{body_m};

use codes::{HaltAction, MarketCode, YesNo};
use records::{Body, BodyRead, DirectListing, Text8};

// The body of h, an operational halt.
pub fn parse_operational_halt(s: &[u8]) -> BodyRead
    ensures { body_m result ≡ body_of 'h' s.now }
{
    let stock = format::text_at::<Text8>(s, 13)?;
    let market = codes::code_at::<MarketCode>(s, 21)?;
    let action = codes::code_at::<HaltAction>(s, 22)?;
    Ok((
        Body::OperationalHalt {
            stock,
            market_code: market,
            action,
        },
        tables::END_OPERATIONAL_HALT,
    ))
}

// The body of O, a direct listing.
pub fn parse_direct_listing(s: &[u8]) -> BodyRead
    ensures { body_m result ≡ body_of 'O' s.now }
{
    let stock = format::text_at::<Text8>(s, 13)?;
    let open_eligibility = codes::code_at::<YesNo>(s, 21)?;
    let minimum_price = format::number_at::<u32>(s, 22)?;
    let maximum_price = format::number_at::<u32>(s, 26)?;
    let near_execution_price = format::number_at::<u32>(s, 30)?;
    let near_execution_time = format::number_at::<u64>(s, 34)?;
    let lower_collar = format::number_at::<u32>(s, 42)?;
    let upper_collar = format::number_at::<u32>(s, 46)?;
    Ok((
        Body::DirectListing(DirectListing {
            stock,
            open_eligibility,
            minimum_price,
            maximum_price,
            near_execution_price,
            near_execution_time,
            lower_collar,
            upper_collar,
        }),
        tables::END_O,
    ))
}
