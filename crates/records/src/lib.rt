// The messages: Message, Body with its 20 kinds and their structs, named as in the Rust, and the two kinds that the later edition adds. A text is
// kept as the number that its bytes are, a price as the raw number that it is on the wire.
#![tactic(auto)]

use codes::{
    CrossType, EtpFlag, EventCode, FinancialStatus, HaltAction, ImbalanceDirection, InterestFlag,
    IpoReleaseQualifier, IssueClassification, IssueSubType, LevelBreached, LuldRefPriceTier,
    MarketCategory, MarketCode, MarketMakerMode, MarketParticipantState, RegShoAction, Side,
    TradingState,
};
use format::Fault;

// Four bytes of text, as the number that they are, the first the highest.
pub type Text4 = u32;

// Eight bytes of text.
pub type Text8 = u64;

// A price with four decimal places.
pub type Price4 = u32;

// A price with eight decimal places.
pub type Price8 = u64;

// A and F: a new order.
#[derive(Clone, Copy)]
pub struct AddOrder {
    pub reference: u64,
    pub side: Side,
    pub shares: u32,
    pub stock: Text8,
    pub price: Price4,
    // the attribution: F has one, A has none
    pub mpid: Option<Text4>,
}

// I: the net order imbalance before a cross.
#[derive(Clone, Copy)]
pub struct ImbalanceIndicator {
    pub paired_shares: u64,
    pub imbalance_shares: u64,
    pub imbalance_direction: ImbalanceDirection,
    pub stock: Text8,
    pub far_price: Price4,
    pub near_price: Price4,
    pub current_ref_price: Price4,
    pub cross_type: CrossType,
    // any byte: it is not judged
    pub price_variation_indicator: u8,
}

// K: when the quoting of a new stock begins.
#[derive(Clone, Copy)]
pub struct IpoQuotingPeriod {
    pub stock: Text8,
    // seconds since midnight
    pub release_time: u32,
    pub release_qualifier: IpoReleaseQualifier,
    pub price: Price4,
}

// L: what a participant is for a stock.
#[derive(Clone, Copy)]
pub struct MarketParticipantPosition {
    pub mpid: Text4,
    pub stock: Text8,
    pub primary_market_maker: bool,
    pub market_maker_mode: MarketMakerMode,
    pub market_participant_state: MarketParticipantState,
}

// N: which sides of a stock have retail price improvement.
#[derive(Clone, Copy)]
pub struct RetailPriceImprovementIndicator {
    pub stock: Text8,
    pub interest_flag: InterestFlag,
}

// P: a trade against an order that is not displayed.
#[derive(Clone, Copy)]
pub struct NonCrossTrade {
    pub reference: u64,
    pub side: Side,
    pub shares: u32,
    pub stock: Text8,
    pub price: Price4,
    pub match_number: u64,
}

// Q: a cross.
#[derive(Clone, Copy)]
pub struct CrossTrade {
    pub shares: u64,
    pub stock: Text8,
    pub cross_price: Price4,
    pub match_number: u64,
    pub cross_type: CrossType,
}

// R: a stock and what is known of it at the start of the day.
#[derive(Clone, Copy)]
pub struct StockDirectory {
    pub stock: Text8,
    pub market_category: MarketCategory,
    pub financial_status: FinancialStatus,
    pub round_lot_size: u32,
    pub round_lots_only: bool,
    pub issue_classification: IssueClassification,
    pub issue_subtype: IssueSubType,
    // whether it is in production; else a test
    pub authenticity: bool,
    // yes, no or absent, as the next
    pub short_sale_threshold: Option<bool>,
    pub ipo_flag: Option<bool>,
    pub luld_ref_price_tier: LuldRefPriceTier,
    pub etp_flag: EtpFlag,
    pub etp_leverage_factor: u32,
    pub inverse_indicator: bool,
}

// U: an order takes the place of another.
#[derive(Clone, Copy)]
pub struct ReplaceOrder {
    pub old_reference: u64,
    pub new_reference: u64,
    pub shares: u32,
    pub price: Price4,
}

// O, of the later edition: the prices of a stock that is listed directly and raises capital.
#[derive(Clone, Copy)]
pub struct DirectListing {
    pub stock: Text8,
    // whether it may open for trading
    pub open_eligibility: bool,
    pub minimum_price: Price4,
    pub maximum_price: Price4,
    pub near_execution_price: Price4,
    // nanoseconds since midnight
    pub near_execution_time: u64,
    pub lower_collar: Price4,
    pub upper_collar: Price4,
}

// What a message says, by its kind. A and F share one. The last two are of the later edition.
#[derive(Clone, Copy)]
pub enum Body {
    AddOrder(AddOrder),
    Breach(LevelBreached),
    BrokenTrade {
        match_number: u64,
    },
    CrossTrade(CrossTrade),
    DeleteOrder {
        reference: u64,
    },
    Imbalance(ImbalanceIndicator),
    IpoQuotingPeriod(IpoQuotingPeriod),
    LULDAuctionCollar {
        stock: Text8,
        ref_price: Price4,
        upper_price: Price4,
        lower_price: Price4,
        extension: u32,
    },
    MwcbDeclineLevel {
        level1: Price8,
        level2: Price8,
        level3: Price8,
    },
    NonCrossTrade(NonCrossTrade),
    OrderCancelled {
        reference: u64,
        cancelled: u32,
    },
    OrderExecuted {
        reference: u64,
        executed: u32,
        match_number: u64,
    },
    OrderExecutedWithPrice {
        reference: u64,
        executed: u32,
        match_number: u64,
        printable: bool,
        price: Price4,
    },
    ParticipantPosition(MarketParticipantPosition),
    RegShoRestriction {
        stock: Text8,
        action: RegShoAction,
    },
    ReplaceOrder(ReplaceOrder),
    RetailPriceImprovementIndicator(RetailPriceImprovementIndicator),
    StockDirectory(StockDirectory),
    SystemEvent {
        event: EventCode,
    },
    TradingAction {
        stock: Text8,
        trading_state: TradingState,
        // any byte: it is not judged
        reserved: u8,
        reason: Text4,
    },
    OperationalHalt {
        stock: Text8,
        market_code: MarketCode,
        action: HaltAction,
    },
    DirectListing(DirectListing),
}

// A whole message: its header, without the length, and its body.
#[derive(Clone, Copy)]
pub struct Message {
    pub tag: u8,
    pub stock_locate: u16,
    pub tracking_number: u16,
    // nanoseconds since midnight
    pub timestamp: u64,
    pub body: Body,
}

// What reading a body answers: the body and the place behind it, or why there is none.
pub type BodyRead = Result<(Body, usize), Fault>;
