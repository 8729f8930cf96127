// The names of orders, trades and crosses: A, F, P, I, Q and N.
ghost use Rattle.std.specs.Prelude.{◌≡◌};
ghost use Rattle.format.specs.Codes.{cross, direction, imbalance_cross, interest, side};
ghost use Rattle.codes.specs.Names.{cross_byte, cross_from, direction_byte, direction_from, interest_byte, interest_from, side_byte, side_from};
ghost use Rattle.codes.specs.Coded.{cross-coded, direction-coded, imbalance_cross-coded, interest-coded, side-coded};

use crate::Code;

// Which side of the book an order or a trade is on: A, F, P.
#[derive(Clone, Copy)]
pub enum Side {
    Buy,
    Sell,
}

impl Code for Side {
    type Name = Side;

    ghost set = { side };

    ghost byte = { side_byte };

    ghost name = { side_from };

    fn has(b: u8) -> bool {
        tables::is_side(b)
    }

    // The name of a byte; Sell for any that is no code.
    fn name(b: u8) -> Side {
        match b {
            b'B' => Side::Buy,
            _ => Side::Sell,
        }
    }

    fn byte(x: Side) -> u8 {
        match x {
            Side::Buy => b'B',
            Side::Sell => b'S',
        }
    }

    ghost named = { side-coded };
}

// Which side of a cross has more: I.
#[derive(Clone, Copy)]
pub enum ImbalanceDirection {
    Buy,
    Sell,
    NoImbalance,
    InsufficientOrders,
}

impl Code for ImbalanceDirection {
    type Name = ImbalanceDirection;

    ghost set = { direction };

    ghost byte = { direction_byte };

    ghost name = { direction_from };

    fn has(b: u8) -> bool {
        tables::is_direction(b)
    }

    // The name of a byte; InsufficientOrders for any that is no code.
    fn name(b: u8) -> ImbalanceDirection {
        match b {
            b'B' => ImbalanceDirection::Buy,
            b'S' => ImbalanceDirection::Sell,
            b'N' => ImbalanceDirection::NoImbalance,
            _ => ImbalanceDirection::InsufficientOrders,
        }
    }

    fn byte(x: ImbalanceDirection) -> u8 {
        match x {
            ImbalanceDirection::Buy => b'B',
            ImbalanceDirection::Sell => b'S',
            ImbalanceDirection::NoImbalance => b'N',
            ImbalanceDirection::InsufficientOrders => b'O',
        }
    }

    ghost named = { direction-coded };
}

// Which cross: I, Q.
#[derive(Clone, Copy)]
pub enum CrossType {
    Opening,
    Closing,
    IpoOrHalted,
    Intraday,
    ExtendedTradingClose,
}

impl Code for CrossType {
    type Name = CrossType;

    ghost set = { cross };

    ghost byte = { cross_byte };

    ghost name = { cross_from };

    fn has(b: u8) -> bool {
        tables::is_cross(b)
    }

    // The name of a byte; ExtendedTradingClose for any that is no code.
    fn name(b: u8) -> CrossType {
        match b {
            b'O' => CrossType::Opening,
            b'C' => CrossType::Closing,
            b'H' => CrossType::IpoOrHalted,
            b'I' => CrossType::Intraday,
            _ => CrossType::ExtendedTradingClose,
        }
    }

    fn byte(x: CrossType) -> u8 {
        match x {
            CrossType::Opening => b'O',
            CrossType::Closing => b'C',
            CrossType::IpoOrHalted => b'H',
            CrossType::Intraday => b'I',
            CrossType::ExtendedTradingClose => b'A',
        }
    }

    ghost named = { cross-coded };
}

// The crosses that an imbalance is told of: those but Intraday.
#[derive(Clone, Copy)]
pub struct ImbalanceCross {}

impl Code for ImbalanceCross {
    type Name = CrossType;

    ghost set = { imbalance_cross };

    ghost byte = { cross_byte };

    ghost name = { cross_from };

    fn has(b: u8) -> bool {
        tables::is_imbalance_cross(b)
    }

    fn name(b: u8) -> CrossType {
        CrossType::name(b)
    }

    fn byte(x: CrossType) -> u8 {
        CrossType::byte(x)
    }

    ghost named = { imbalance_cross-coded };
}

// Which sides retail price improvement is there for: N.
#[derive(Clone, Copy)]
pub enum InterestFlag {
    RPIAvailableBuySide,
    RPIAvailableSellSide,
    RPIAvailableBothSides,
    RPINoneAvailable,
}

impl Code for InterestFlag {
    type Name = InterestFlag;

    ghost set = { interest };

    ghost byte = { interest_byte };

    ghost name = { interest_from };

    fn has(b: u8) -> bool {
        tables::is_interest(b)
    }

    // The name of a byte; RPINoneAvailable for any that is no code.
    fn name(b: u8) -> InterestFlag {
        match b {
            b'B' => InterestFlag::RPIAvailableBuySide,
            b'S' => InterestFlag::RPIAvailableSellSide,
            b'A' => InterestFlag::RPIAvailableBothSides,
            _ => InterestFlag::RPINoneAvailable,
        }
    }

    fn byte(x: InterestFlag) -> u8 {
        match x {
            InterestFlag::RPIAvailableBuySide => b'B',
            InterestFlag::RPIAvailableSellSide => b'S',
            InterestFlag::RPIAvailableBothSides => b'A',
            InterestFlag::RPINoneAvailable => b'N',
        }
    }

    ghost named = { interest-coded };
}
