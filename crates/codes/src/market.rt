// The names of what happens to the market, to a stock and to a participant: S, H, Y, L, W, K and h.
ghost use Rattle.std.specs.Prelude.{◌≡◌};
ghost use Rattle.format.specs.Codes.{action, event, halt, level, maker_mode, market, participant_state, qualifier, trading_state};
ghost use Rattle.codes.specs.Names.{action_byte, action_from, event_byte, event_from, halt_byte, halt_from, level_byte, level_from, maker_mode_byte, maker_mode_from, market_byte, market_from, participant_state_byte, participant_state_from, qualifier_byte, qualifier_from, trading_state_byte, trading_state_from};
ghost use Rattle.codes.specs.Coded.{action-coded, event-coded, halt-coded, level-coded, maker_mode-coded, market-coded, participant_state-coded, qualifier-coded, trading_state-coded};

use crate::Code;

// The hour of the day that the whole market has come to: S.
#[derive(Clone, Copy)]
pub enum EventCode {
    StartOfMessages,
    StartOfSystemHours,
    StartOfMarketHours,
    EndOfMarketHours,
    EndOfSystemHours,
    EndOfMessages,
}

impl Code for EventCode {
    type Name = EventCode;

    ghost set = { event };

    ghost byte = { event_byte };

    ghost name = { event_from };

    fn has(b: u8) -> bool {
        tables::is_event(b)
    }

    // The name of a byte; EndOfMessages for any that is no code.
    fn name(b: u8) -> EventCode {
        match b {
            b'O' => EventCode::StartOfMessages,
            b'S' => EventCode::StartOfSystemHours,
            b'Q' => EventCode::StartOfMarketHours,
            b'M' => EventCode::EndOfMarketHours,
            b'E' => EventCode::EndOfSystemHours,
            _ => EventCode::EndOfMessages,
        }
    }

    fn byte(x: EventCode) -> u8 {
        match x {
            EventCode::StartOfMessages => b'O',
            EventCode::StartOfSystemHours => b'S',
            EventCode::StartOfMarketHours => b'Q',
            EventCode::EndOfMarketHours => b'M',
            EventCode::EndOfSystemHours => b'E',
            EventCode::EndOfMessages => b'C',
        }
    }

    ghost named = { event-coded };
}

// Whether a stock trades: H.
#[derive(Clone, Copy)]
pub enum TradingState {
    Halted,
    Paused,
    QuotationOnly,
    Trading,
}

impl Code for TradingState {
    type Name = TradingState;

    ghost set = { trading_state };

    ghost byte = { trading_state_byte };

    ghost name = { trading_state_from };

    fn has(b: u8) -> bool {
        tables::is_trading_state(b)
    }

    // The name of a byte; Trading for any that is no code.
    fn name(b: u8) -> TradingState {
        match b {
            b'H' => TradingState::Halted,
            b'P' => TradingState::Paused,
            b'Q' => TradingState::QuotationOnly,
            _ => TradingState::Trading,
        }
    }

    fn byte(x: TradingState) -> u8 {
        match x {
            TradingState::Halted => b'H',
            TradingState::Paused => b'P',
            TradingState::QuotationOnly => b'Q',
            TradingState::Trading => b'T',
        }
    }

    ghost named = { trading_state-coded };
}

// The short sale restriction on a stock: Y.
#[derive(Clone, Copy)]
pub enum RegShoAction {
    None,
    Intraday,
    Extant,
}

impl Code for RegShoAction {
    type Name = RegShoAction;

    ghost set = { action };

    ghost byte = { action_byte };

    ghost name = { action_from };

    fn has(b: u8) -> bool {
        tables::is_action(b)
    }

    // The name of a byte; Extant for any that is no code.
    fn name(b: u8) -> RegShoAction {
        match b {
            b'0' => RegShoAction::None,
            b'1' => RegShoAction::Intraday,
            _ => RegShoAction::Extant,
        }
    }

    fn byte(x: RegShoAction) -> u8 {
        match x {
            RegShoAction::None => b'0',
            RegShoAction::Intraday => b'1',
            RegShoAction::Extant => b'2',
        }
    }

    ghost named = { action-coded };
}

// How a market maker makes the market of a stock: L.
#[derive(Clone, Copy)]
pub enum MarketMakerMode {
    Normal,
    Passive,
    Syndicate,
    Presyndicate,
    Penalty,
}

impl Code for MarketMakerMode {
    type Name = MarketMakerMode;

    ghost set = { maker_mode };

    ghost byte = { maker_mode_byte };

    ghost name = { maker_mode_from };

    fn has(b: u8) -> bool {
        tables::is_maker_mode(b)
    }

    // The name of a byte; Penalty for any that is no code.
    fn name(b: u8) -> MarketMakerMode {
        match b {
            b'N' => MarketMakerMode::Normal,
            b'P' => MarketMakerMode::Passive,
            b'S' => MarketMakerMode::Syndicate,
            b'R' => MarketMakerMode::Presyndicate,
            _ => MarketMakerMode::Penalty,
        }
    }

    fn byte(x: MarketMakerMode) -> u8 {
        match x {
            MarketMakerMode::Normal => b'N',
            MarketMakerMode::Passive => b'P',
            MarketMakerMode::Syndicate => b'S',
            MarketMakerMode::Presyndicate => b'R',
            MarketMakerMode::Penalty => b'L',
        }
    }

    ghost named = { maker_mode-coded };
}

// Whether a participant is there for a stock: L.
#[derive(Clone, Copy)]
pub enum MarketParticipantState {
    Active,
    Excused,
    Withdrawn,
    Suspended,
    Deleted,
}

impl Code for MarketParticipantState {
    type Name = MarketParticipantState;

    ghost set = { participant_state };

    ghost byte = { participant_state_byte };

    ghost name = { participant_state_from };

    fn has(b: u8) -> bool {
        tables::is_participant_state(b)
    }

    // The name of a byte; Deleted for any that is no code.
    fn name(b: u8) -> MarketParticipantState {
        match b {
            b'A' => MarketParticipantState::Active,
            b'E' => MarketParticipantState::Excused,
            b'W' => MarketParticipantState::Withdrawn,
            b'S' => MarketParticipantState::Suspended,
            _ => MarketParticipantState::Deleted,
        }
    }

    fn byte(x: MarketParticipantState) -> u8 {
        match x {
            MarketParticipantState::Active => b'A',
            MarketParticipantState::Excused => b'E',
            MarketParticipantState::Withdrawn => b'W',
            MarketParticipantState::Suspended => b'S',
            MarketParticipantState::Deleted => b'D',
        }
    }

    ghost named = { participant_state-coded };
}

// Which decline level of the market was breached: W.
#[derive(Clone, Copy)]
pub enum LevelBreached {
    L1,
    L2,
    L3,
}

impl Code for LevelBreached {
    type Name = LevelBreached;

    ghost set = { level };

    ghost byte = { level_byte };

    ghost name = { level_from };

    fn has(b: u8) -> bool {
        tables::is_level(b)
    }

    // The name of a byte; L3 for any that is no code.
    fn name(b: u8) -> LevelBreached {
        match b {
            b'1' => LevelBreached::L1,
            b'2' => LevelBreached::L2,
            _ => LevelBreached::L3,
        }
    }

    fn byte(x: LevelBreached) -> u8 {
        match x {
            LevelBreached::L1 => b'1',
            LevelBreached::L2 => b'2',
            LevelBreached::L3 => b'3',
        }
    }

    ghost named = { level-coded };
}

// Whether the release time of a new stock stands: K.
#[derive(Clone, Copy)]
pub enum IpoReleaseQualifier {
    Anticipated,
    Cancelled,
}

impl Code for IpoReleaseQualifier {
    type Name = IpoReleaseQualifier;

    ghost set = { qualifier };

    ghost byte = { qualifier_byte };

    ghost name = { qualifier_from };

    fn has(b: u8) -> bool {
        tables::is_qualifier(b)
    }

    // The name of a byte; Cancelled for any that is no code.
    fn name(b: u8) -> IpoReleaseQualifier {
        match b {
            b'A' => IpoReleaseQualifier::Anticipated,
            _ => IpoReleaseQualifier::Cancelled,
        }
    }

    fn byte(x: IpoReleaseQualifier) -> u8 {
        match x {
            IpoReleaseQualifier::Anticipated => b'A',
            IpoReleaseQualifier::Cancelled => b'C',
        }
    }

    ghost named = { qualifier-coded };
}

// Which market halts a stock by itself: h.
#[derive(Clone, Copy)]
pub enum MarketCode {
    Nasdaq,
    Bx,
    Psx,
}

impl Code for MarketCode {
    type Name = MarketCode;

    ghost set = { market };

    ghost byte = { market_byte };

    ghost name = { market_from };

    fn has(b: u8) -> bool {
        tables::is_market(b)
    }

    // The name of a byte; Psx for any that is no code.
    fn name(b: u8) -> MarketCode {
        match b {
            b'Q' => MarketCode::Nasdaq,
            b'B' => MarketCode::Bx,
            _ => MarketCode::Psx,
        }
    }

    fn byte(x: MarketCode) -> u8 {
        match x {
            MarketCode::Nasdaq => b'Q',
            MarketCode::Bx => b'B',
            MarketCode::Psx => b'X',
        }
    }

    ghost named = { market-coded };
}

// Whether it halts the stock or lets it trade again: h.
#[derive(Clone, Copy)]
pub enum HaltAction {
    Halted,
    Resumed,
}

impl Code for HaltAction {
    type Name = HaltAction;

    ghost set = { halt };

    ghost byte = { halt_byte };

    ghost name = { halt_from };

    fn has(b: u8) -> bool {
        tables::is_halt(b)
    }

    // The name of a byte; Resumed for any that is no code.
    fn name(b: u8) -> HaltAction {
        match b {
            b'H' => HaltAction::Halted,
            _ => HaltAction::Resumed,
        }
    }

    fn byte(x: HaltAction) -> u8 {
        match x {
            HaltAction::Halted => b'H',
            HaltAction::Resumed => b'T',
        }
    }

    ghost named = { halt-coded };
}
