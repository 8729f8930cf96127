// Changes of a record, so that the writer can be given what no window has: a tag that is not the body's, a timestamp that is too large, a text that is not UTF-8,
// an imbalance record with the cross Intraday.
use codes::CrossType;
use records::{
    AddOrder, Body, CrossTrade, DirectListing, ImbalanceIndicator, IpoQuotingPeriod,
    MarketParticipantPosition, Message, NonCrossTrade, RetailPriceImprovementIndicator,
    StockDirectory, Text4,
};

// What is changed, and to which value.
#[derive(Clone, Copy)]
enum Change {
    Tag(u8),
    Time(u64),
    Text8(u64),
    Text4(u32),
    NoMpid,
    Intraday,
}

impl Change {
    // The change of this number; other numbers are none.
    fn of(what: u64, to: u64) -> Option<Change> {
        match what {
            1 => Some(Change::Tag((to % 256) as u8)),
            2 => Some(Change::Time(to)),
            3 => Some(Change::Text8(to)),
            4 => Some(Change::Text4((to % 4294967296) as u32)),
            5 => Some(Change::NoMpid),
            6 => Some(Change::Intraday),
            _ => None,
        }
    }

    fn text8(self, old: u64) -> u64 {
        match self {
            Change::Text8(to) => to,
            _ => old,
        }
    }

    fn text4(self, old: u32) -> u32 {
        match self {
            Change::Text4(to) => to,
            _ => old,
        }
    }

    fn mpid(self, old: Option<Text4>) -> Option<Text4> {
        match self {
            Change::Text4(to) => Some(to),
            Change::NoMpid => None,
            _ => old,
        }
    }

    fn cross(self, old: CrossType) -> CrossType {
        match self {
            Change::Intraday => CrossType::Intraday,
            _ => old,
        }
    }
}

// A body with its texts, its mpid or its cross changed, where it has one.
fn body_of(b: Body, c: Change) -> Body {
    match b {
        Body::AddOrder(x) => Body::AddOrder(AddOrder {
            stock: c.text8(x.stock),
            mpid: c.mpid(x.mpid),
            ..x
        }),
        Body::CrossTrade(x) => Body::CrossTrade(CrossTrade {
            stock: c.text8(x.stock),
            cross_type: c.cross(x.cross_type),
            ..x
        }),
        Body::Imbalance(x) => Body::Imbalance(ImbalanceIndicator {
            stock: c.text8(x.stock),
            cross_type: c.cross(x.cross_type),
            ..x
        }),
        Body::IpoQuotingPeriod(x) => Body::IpoQuotingPeriod(IpoQuotingPeriod {
            stock: c.text8(x.stock),
            ..x
        }),
        Body::LULDAuctionCollar {
            stock,
            ref_price,
            upper_price,
            lower_price,
            extension,
        } => Body::LULDAuctionCollar {
            stock: c.text8(stock),
            ref_price,
            upper_price,
            lower_price,
            extension,
        },
        Body::NonCrossTrade(x) => Body::NonCrossTrade(NonCrossTrade {
            stock: c.text8(x.stock),
            ..x
        }),
        Body::ParticipantPosition(x) => Body::ParticipantPosition(MarketParticipantPosition {
            stock: c.text8(x.stock),
            mpid: c.text4(x.mpid),
            ..x
        }),
        Body::RegShoRestriction { stock, action } => Body::RegShoRestriction {
            stock: c.text8(stock),
            action,
        },
        Body::RetailPriceImprovementIndicator(x) => {
            Body::RetailPriceImprovementIndicator(RetailPriceImprovementIndicator {
                stock: c.text8(x.stock),
                ..x
            })
        }
        Body::StockDirectory(x) => Body::StockDirectory(StockDirectory {
            stock: c.text8(x.stock),
            ..x
        }),
        Body::TradingAction {
            stock,
            trading_state,
            reserved,
            reason,
        } => Body::TradingAction {
            stock: c.text8(stock),
            trading_state,
            reserved,
            reason: c.text4(reason),
        },
        Body::OperationalHalt {
            stock,
            market_code,
            action,
        } => Body::OperationalHalt {
            stock: c.text8(stock),
            market_code,
            action,
        },
        Body::DirectListing(x) => Body::DirectListing(DirectListing {
            stock: c.text8(x.stock),
            ..x
        }),
        _ => b,
    }
}

// A record with one thing changed, if anything. What its body has no place for changes nothing.
fn once(m: Message, what: u64, to: u64) -> Message {
    match Change::of(what, to) {
        None => m,
        Some(Change::Tag(tag)) => Message { tag, ..m },
        Some(Change::Time(timestamp)) => Message { timestamp, ..m },
        Some(c) => Message {
            body: body_of(m.body, c),
            ..m
        },
    }
}

// A record with four things changed, one after the other, as a call's numbers say: what, and to which value.
pub fn changed(m: Message, v: [u64; 17]) -> Message {
    let [_, what1, to1, what2, to2, what3, to3, what4, to4, ..] = v;
    once(
        once(once(once(m, what1, to1), what2, to2), what3, to3),
        what4,
        to4,
    )
}
