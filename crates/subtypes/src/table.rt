// The 58 codes of the issue subtype, in ascending order, one a row, and beside each the Rust's name. Where the exchange's list has one letter, the second
// byte is a space.
pub static SUBTYPES: [[u8; 2]; 58] = [
    *b"A ", // PreferredTrustSecurities
    *b"AI", // AlphaIndexETNs
    *b"B ", // IndexBasedDerivative
    *b"C ", // CommonShares
    *b"CB", // CommodityBasedTrustShares
    *b"CF", // CommodityFuturesTrustShares
    *b"CL", // CommodityLinkedSecurities
    *b"CM", // CommodityIndexTrustShares
    *b"CO", // CollateralizedMortgageObligation
    *b"CT", // CurrencyTrustShares
    *b"CU", // CommodityCurrencyLinkedSecurities
    *b"CW", // CurrencyWarrants
    *b"D ", // GlobalDepositaryShares
    *b"E ", // ETFPortfolioDepositaryReceipt
    *b"EG", // EquityGoldShares
    *b"EI", // ETNEquityIndexLinkedSecurities
    *b"EM", // ExchangeTradedManagedFunds
    *b"EN", // ExchangeTradedNotes
    *b"EU", // EquityUnits
    *b"F ", // Holdrs
    *b"FI", // ETNFixedIncomeLinkedSecurities
    *b"FL", // ETNFuturesLinkedSecurities
    *b"G ", // GlobalShares
    *b"I ", // ETFIndexFundShares
    *b"IR", // InterestRate
    *b"IW", // IndexWarrant
    *b"IX", // IndexLinkedExchangeableNotes
    *b"J ", // CorporateBackedTrustSecurity
    *b"L ", // ContingentLitigationRight
    *b"LL", // Llc
    *b"M ", // EquityBasedDerivative
    *b"MF", // ManagedFundShares
    *b"ML", // ETNMultiFactorIndexLinkedSecurities
    *b"MT", // ManagedTrustSecurities
    *b"N ", // NYRegistryShares
    *b"O ", // OpenEndedMutualFund
    *b"P ", // PrivatelyHeldSecurity
    *b"PP", // PoisonPill
    *b"PU", // PartnershipUnits
    *b"Q ", // ClosedEndFunds
    *b"R ", // RegS
    *b"RC", // CommodityRedeemableCommodityLinkedSecurities
    *b"RF", // ETNRedeemableFuturesLinkedSecurities
    *b"RT", // REIT
    *b"RU", // CommodityRedeemableCurrencyLinkedSecurities
    *b"S ", // Seed
    *b"SC", // SpotRateClosing
    *b"SI", // SpotRateIntraday
    *b"T ", // TrackingStock
    *b"TC", // TrustCertificates
    *b"TU", // TrustUnits
    *b"U ", // Portal
    *b"V ", // ContingentValueRight
    *b"W ", // TrustIssuedReceipts
    *b"WC", // WorldCurrencyOption
    *b"X ", // Trust
    *b"Y ", // Other
    *b"Z ", // NotApplicable
];
