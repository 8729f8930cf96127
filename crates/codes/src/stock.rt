// The names of the stock directory, R, but for its subtype.
ghost use Rattle.std.specs.Prelude.{◌≡◌, eqb};
ghost use Rattle.format.specs.Ascii.{'Y', 'P'};
ghost use Rattle.format.specs.Codes.{authenticity, category, class, etp_flag, flag, status, tier, yes_no};
ghost use Rattle.codes.specs.Names.{authenticity_byte, category_byte, category_from, class_byte, class_from, etp_flag_byte, etp_flag_from, flag_byte, flag_from, status_byte, status_from, tier_byte, tier_from, yes_no_byte};
ghost use Rattle.codes.specs.Coded.{authenticity-coded, category-coded, class-coded, etp_flag-coded, flag-coded, status-coded, tier-coded, yes_no-coded};

use crate::Code;

// Where a stock is listed.
#[derive(Clone, Copy)]
pub enum MarketCategory {
    NasdaqGlobalSelect,
    NasdaqGlobalMarket,
    NasdaqCapitalMarket,
    Nyse,
    NyseMkt,
    NyseArca,
    BatsZExchange,
    InvestorsExchange,
    Unavailable,
}

impl Code for MarketCategory {
    type Name = MarketCategory;

    ghost set = { category };

    ghost byte = { category_byte };

    ghost name = { category_from };

    fn has(b: u8) -> bool {
        tables::is_category(b)
    }

    // The name of a byte; Unavailable for any that is no code.
    fn name(b: u8) -> MarketCategory {
        match b {
            b'Q' => MarketCategory::NasdaqGlobalSelect,
            b'G' => MarketCategory::NasdaqGlobalMarket,
            b'S' => MarketCategory::NasdaqCapitalMarket,
            b'N' => MarketCategory::Nyse,
            b'A' => MarketCategory::NyseMkt,
            b'P' => MarketCategory::NyseArca,
            b'Z' => MarketCategory::BatsZExchange,
            b'V' => MarketCategory::InvestorsExchange,
            _ => MarketCategory::Unavailable,
        }
    }

    fn byte(x: MarketCategory) -> u8 {
        match x {
            MarketCategory::NasdaqGlobalSelect => b'Q',
            MarketCategory::NasdaqGlobalMarket => b'G',
            MarketCategory::NasdaqCapitalMarket => b'S',
            MarketCategory::Nyse => b'N',
            MarketCategory::NyseMkt => b'A',
            MarketCategory::NyseArca => b'P',
            MarketCategory::BatsZExchange => b'Z',
            MarketCategory::InvestorsExchange => b'V',
            MarketCategory::Unavailable => b' ',
        }
    }

    ghost named = { category-coded };
}

// What its issuer has failed to do.
#[derive(Clone, Copy)]
pub enum FinancialStatus {
    Normal,
    Deficient,
    Delinquent,
    Bankrupt,
    Suspended,
    DeficientBankrupt,
    DeficientDelinquent,
    DelinquentBankrupt,
    DeficientDelinquentBankrupt,
    EtpSuspended,
    Unavailable,
}

impl Code for FinancialStatus {
    type Name = FinancialStatus;

    ghost set = { status };

    ghost byte = { status_byte };

    ghost name = { status_from };

    fn has(b: u8) -> bool {
        tables::is_status(b)
    }

    // The name of a byte; Unavailable for any that is no code.
    fn name(b: u8) -> FinancialStatus {
        match b {
            b'N' => FinancialStatus::Normal,
            b'D' => FinancialStatus::Deficient,
            b'E' => FinancialStatus::Delinquent,
            b'Q' => FinancialStatus::Bankrupt,
            b'S' => FinancialStatus::Suspended,
            b'G' => FinancialStatus::DeficientBankrupt,
            b'H' => FinancialStatus::DeficientDelinquent,
            b'J' => FinancialStatus::DelinquentBankrupt,
            b'K' => FinancialStatus::DeficientDelinquentBankrupt,
            b'C' => FinancialStatus::EtpSuspended,
            _ => FinancialStatus::Unavailable,
        }
    }

    fn byte(x: FinancialStatus) -> u8 {
        match x {
            FinancialStatus::Normal => b'N',
            FinancialStatus::Deficient => b'D',
            FinancialStatus::Delinquent => b'E',
            FinancialStatus::Bankrupt => b'Q',
            FinancialStatus::Suspended => b'S',
            FinancialStatus::DeficientBankrupt => b'G',
            FinancialStatus::DeficientDelinquent => b'H',
            FinancialStatus::DelinquentBankrupt => b'J',
            FinancialStatus::DeficientDelinquentBankrupt => b'K',
            FinancialStatus::EtpSuspended => b'C',
            FinancialStatus::Unavailable => b' ',
        }
    }

    ghost named = { status-coded };
}

// The class of the security.
#[derive(Clone, Copy)]
pub enum IssueClassification {
    AmericanDepositaryShare,
    Bond,
    CommonStock,
    DepositoryReceipt,
    A144,
    LimitedPartnership,
    Notes,
    OrdinaryShare,
    PreferredStock,
    OtherSecurities,
    Right,
    SharesOfBeneficialInterest,
    ConvertibleDebenture,
    Unit,
    UnitsPerBenifInt,
    Warrant,
}

impl Code for IssueClassification {
    type Name = IssueClassification;

    ghost set = { class };

    ghost byte = { class_byte };

    ghost name = { class_from };

    fn has(b: u8) -> bool {
        tables::is_class(b)
    }

    // The name of a byte; Warrant for any that is no code.
    fn name(b: u8) -> IssueClassification {
        match b {
            b'A' => IssueClassification::AmericanDepositaryShare,
            b'B' => IssueClassification::Bond,
            b'C' => IssueClassification::CommonStock,
            b'F' => IssueClassification::DepositoryReceipt,
            b'I' => IssueClassification::A144,
            b'L' => IssueClassification::LimitedPartnership,
            b'N' => IssueClassification::Notes,
            b'O' => IssueClassification::OrdinaryShare,
            b'P' => IssueClassification::PreferredStock,
            b'Q' => IssueClassification::OtherSecurities,
            b'R' => IssueClassification::Right,
            b'S' => IssueClassification::SharesOfBeneficialInterest,
            b'T' => IssueClassification::ConvertibleDebenture,
            b'U' => IssueClassification::Unit,
            b'V' => IssueClassification::UnitsPerBenifInt,
            _ => IssueClassification::Warrant,
        }
    }

    fn byte(x: IssueClassification) -> u8 {
        match x {
            IssueClassification::AmericanDepositaryShare => b'A',
            IssueClassification::Bond => b'B',
            IssueClassification::CommonStock => b'C',
            IssueClassification::DepositoryReceipt => b'F',
            IssueClassification::A144 => b'I',
            IssueClassification::LimitedPartnership => b'L',
            IssueClassification::Notes => b'N',
            IssueClassification::OrdinaryShare => b'O',
            IssueClassification::PreferredStock => b'P',
            IssueClassification::OtherSecurities => b'Q',
            IssueClassification::Right => b'R',
            IssueClassification::SharesOfBeneficialInterest => b'S',
            IssueClassification::ConvertibleDebenture => b'T',
            IssueClassification::Unit => b'U',
            IssueClassification::UnitsPerBenifInt => b'V',
            IssueClassification::Warrant => b'W',
        }
    }

    ghost named = { class-coded };
}

// The tier of its limit up, limit down prices.
#[derive(Clone, Copy)]
pub enum LuldRefPriceTier {
    Tier1,
    Tier2,
    Na,
}

impl Code for LuldRefPriceTier {
    type Name = LuldRefPriceTier;

    ghost set = { tier };

    ghost byte = { tier_byte };

    ghost name = { tier_from };

    fn has(b: u8) -> bool {
        tables::is_tier(b)
    }

    // The name of a byte; Na for any that is no code.
    fn name(b: u8) -> LuldRefPriceTier {
        match b {
            b'1' => LuldRefPriceTier::Tier1,
            b'2' => LuldRefPriceTier::Tier2,
            _ => LuldRefPriceTier::Na,
        }
    }

    fn byte(x: LuldRefPriceTier) -> u8 {
        match x {
            LuldRefPriceTier::Tier1 => b'1',
            LuldRefPriceTier::Tier2 => b'2',
            LuldRefPriceTier::Na => b' ',
        }
    }

    ghost named = { tier-coded };
}

// Yes, no or absent, as the short sale threshold and the IPO flag are.
#[derive(Clone, Copy)]
pub struct Flag {}

impl Code for Flag {
    type Name = Option<bool>;

    ghost set = { flag };

    ghost byte = { flag_byte };

    ghost name = { flag_from };

    fn has(b: u8) -> bool {
        tables::is_flag(b)
    }

    // The name of a byte; None for any that is no code.
    fn name(b: u8) -> Option<bool> {
        match b {
            b'Y' => Some(true),
            b'N' => Some(false),
            _ => None,
        }
    }

    fn byte(x: Option<bool>) -> u8 {
        match x {
            Some(true) => b'Y',
            Some(false) => b'N',
            None => b' ',
        }
    }

    ghost named = { flag-coded };
}

// The ETP flag: yes, no or absent, and M, which has the letter for its name. The Rust's Option<bool> takes M for yes, and nothing says what else it means.
#[derive(Clone, Copy)]
pub enum EtpFlag {
    Yes,
    No,
    M,
    Absent,
}

impl Code for EtpFlag {
    type Name = EtpFlag;

    ghost set = { etp_flag };

    ghost byte = { etp_flag_byte };

    ghost name = { etp_flag_from };

    fn has(b: u8) -> bool {
        tables::is_etp_flag(b)
    }

    // The name of a byte; Absent for any that is no code.
    fn name(b: u8) -> EtpFlag {
        match b {
            b'Y' => EtpFlag::Yes,
            b'N' => EtpFlag::No,
            b'M' => EtpFlag::M,
            _ => EtpFlag::Absent,
        }
    }

    fn byte(x: EtpFlag) -> u8 {
        match x {
            EtpFlag::Yes => b'Y',
            EtpFlag::No => b'N',
            EtpFlag::M => b'M',
            EtpFlag::Absent => b' ',
        }
    }

    ghost named = { etp_flag-coded };
}

// Yes or no.
#[derive(Clone, Copy)]
pub struct YesNo {}

impl Code for YesNo {
    type Name = bool;

    ghost set = { yes_no };

    ghost byte = { yes_no_byte };

    ghost name = { λ b. eqb b 'Y' };

    fn has(b: u8) -> bool {
        tables::is_yes_no(b)
    }

    // Yes is true: whether the byte is Y.
    fn name(b: u8) -> bool {
        b == b'Y'
    }

    fn byte(x: bool) -> u8 {
        if x { b'Y' } else { b'N' }
    }

    ghost named = { yes_no-coded };
}

// Whether a stock is in production, or a test.
#[derive(Clone, Copy)]
pub struct Authenticity {}

impl Code for Authenticity {
    type Name = bool;

    ghost set = { authenticity };

    ghost byte = { authenticity_byte };

    ghost name = { λ b. eqb b 'P' };

    fn has(b: u8) -> bool {
        tables::is_authenticity(b)
    }

    // Production is true: whether the byte is P.
    fn name(b: u8) -> bool {
        b == b'P'
    }

    fn byte(x: bool) -> u8 {
        if x { b'P' } else { b'T' }
    }

    ghost named = { authenticity-coded };
}
