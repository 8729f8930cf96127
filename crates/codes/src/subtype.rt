// The names of the stock directory's issue subtype, the one code of two bytes. The two are one number here, the first byte its high one. The codes are
// the table of the crate `subtypes`; the names stand in the order of its rows.
ghost use Rattle.std.specs.Prelude.{◌≡◌, map};
ghost use Rattle.format.specs.Codes.{subtypes};
ghost use Rattle.format.specs.Layout.{subtype, field};
ghost use Rattle.subtypes.specs.Rows.{index_in};
ghost use Rattle.format.specs.Meaning.{field_m};
ghost use Rattle.codes.specs.Names.{subtype_byte, subtype_of};

use format::Fault;

// What kind of security a stock is, more finely than its class: R. Declared in the order of the codes.
#[derive(Clone, Copy)]
pub enum IssueSubType {
    PreferredTrustSecurities,
    AlphaIndexETNs,
    IndexBasedDerivative,
    CommonShares,
    CommodityBasedTrustShares,
    CommodityFuturesTrustShares,
    CommodityLinkedSecurities,
    CommodityIndexTrustShares,
    CollateralizedMortgageObligation,
    CurrencyTrustShares,
    CommodityCurrencyLinkedSecurities,
    CurrencyWarrants,
    GlobalDepositaryShares,
    ETFPortfolioDepositaryReceipt,
    EquityGoldShares,
    ETNEquityIndexLinkedSecurities,
    ExchangeTradedManagedFunds,
    ExchangeTradedNotes,
    EquityUnits,
    Holdrs,
    ETNFixedIncomeLinkedSecurities,
    ETNFuturesLinkedSecurities,
    GlobalShares,
    ETFIndexFundShares,
    InterestRate,
    IndexWarrant,
    IndexLinkedExchangeableNotes,
    CorporateBackedTrustSecurity,
    ContingentLitigationRight,
    Llc,
    EquityBasedDerivative,
    ManagedFundShares,
    ETNMultiFactorIndexLinkedSecurities,
    ManagedTrustSecurities,
    NYRegistryShares,
    OpenEndedMutualFund,
    PrivatelyHeldSecurity,
    PoisonPill,
    PartnershipUnits,
    ClosedEndFunds,
    RegS,
    CommodityRedeemableCommodityLinkedSecurities,
    ETNRedeemableFuturesLinkedSecurities,
    REIT,
    CommodityRedeemableCurrencyLinkedSecurities,
    Seed,
    SpotRateClosing,
    SpotRateIntraday,
    TrackingStock,
    TrustCertificates,
    TrustUnits,
    Portal,
    ContingentValueRight,
    TrustIssuedReceipts,
    WorldCurrencyOption,
    Trust,
    Other,
    NotApplicable,
}

// The names in the order of the rows.
const NAMES: [IssueSubType; 58] = [
    IssueSubType::PreferredTrustSecurities,
    IssueSubType::AlphaIndexETNs,
    IssueSubType::IndexBasedDerivative,
    IssueSubType::CommonShares,
    IssueSubType::CommodityBasedTrustShares,
    IssueSubType::CommodityFuturesTrustShares,
    IssueSubType::CommodityLinkedSecurities,
    IssueSubType::CommodityIndexTrustShares,
    IssueSubType::CollateralizedMortgageObligation,
    IssueSubType::CurrencyTrustShares,
    IssueSubType::CommodityCurrencyLinkedSecurities,
    IssueSubType::CurrencyWarrants,
    IssueSubType::GlobalDepositaryShares,
    IssueSubType::ETFPortfolioDepositaryReceipt,
    IssueSubType::EquityGoldShares,
    IssueSubType::ETNEquityIndexLinkedSecurities,
    IssueSubType::ExchangeTradedManagedFunds,
    IssueSubType::ExchangeTradedNotes,
    IssueSubType::EquityUnits,
    IssueSubType::Holdrs,
    IssueSubType::ETNFixedIncomeLinkedSecurities,
    IssueSubType::ETNFuturesLinkedSecurities,
    IssueSubType::GlobalShares,
    IssueSubType::ETFIndexFundShares,
    IssueSubType::InterestRate,
    IssueSubType::IndexWarrant,
    IssueSubType::IndexLinkedExchangeableNotes,
    IssueSubType::CorporateBackedTrustSecurity,
    IssueSubType::ContingentLitigationRight,
    IssueSubType::Llc,
    IssueSubType::EquityBasedDerivative,
    IssueSubType::ManagedFundShares,
    IssueSubType::ETNMultiFactorIndexLinkedSecurities,
    IssueSubType::ManagedTrustSecurities,
    IssueSubType::NYRegistryShares,
    IssueSubType::OpenEndedMutualFund,
    IssueSubType::PrivatelyHeldSecurity,
    IssueSubType::PoisonPill,
    IssueSubType::PartnershipUnits,
    IssueSubType::ClosedEndFunds,
    IssueSubType::RegS,
    IssueSubType::CommodityRedeemableCommodityLinkedSecurities,
    IssueSubType::ETNRedeemableFuturesLinkedSecurities,
    IssueSubType::REIT,
    IssueSubType::CommodityRedeemableCurrencyLinkedSecurities,
    IssueSubType::Seed,
    IssueSubType::SpotRateClosing,
    IssueSubType::SpotRateIntraday,
    IssueSubType::TrackingStock,
    IssueSubType::TrustCertificates,
    IssueSubType::TrustUnits,
    IssueSubType::Portal,
    IssueSubType::ContingentValueRight,
    IssueSubType::TrustIssuedReceipts,
    IssueSubType::WorldCurrencyOption,
    IssueSubType::Trust,
    IssueSubType::Other,
    IssueSubType::NotApplicable,
];

// These names, whose codes are the table's rows.
fn names() -> [IssueSubType; 58]
    ensures { map subtype_byte result ≡ subtypes }
{
    NAMES
}

// The name of two bytes; 2 at the place for any two that are no code.
fn subtype_of(v: u16, place: u8) -> Result<IssueSubType, Fault>
    ensures { field_m subtype_byte result ≡ subtype_of v place }
{
    let Some(row) = subtypes::row_of(v) else {
        return Err(format::refused(2, place as usize));
    };
    let names = names();
    Ok(names[row])
}

// The row of a name: its number in the enum.
fn row(x: IssueSubType) -> usize
    ensures { result ≡ index_in (subtype_byte x) subtypes }
{
    x as usize
}

// The two bytes of a name.
pub fn subtype_code(x: IssueSubType) -> u16
    ensures { result ≡ subtype_byte x }
{
    subtypes::code_of(row(x)).unwrap()
}

// The issue subtype at a place: two bytes that are one of the 58 codes; 2 elsewhere, short where the slice ends before.
pub fn subtype_at(s: &[u8], place: u8) -> Result<IssueSubType, Fault>
    ensures { field_m subtype_byte result ≡ field subtype s.now place }
{
    let v: u16 = format::number_at(s, place)?;
    subtype_of(v, place)
}
