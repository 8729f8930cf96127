// What the stream answers, as text: a line for each message with every field under the Rust's names. The two programs over it:
//
// `show` reads standard input as a stream, to its first refusal or its end, with the word `later` by the later edition, with the word `strict` strictly.
// Behind the messages it prints `messages N`, `consumed N` (the bytes of the messages answered) and `stopped N P` (the refusal's number and place, `0 0`
// at a clean end).
//
// `cases` plays the reads that its standard input lists (crate reads). For each case: a fresh stream and a zeroed buffer; next is tried again and
// again; where it wants bytes the next read is played, or one that brings nothing where the case has none left. A message prints its line, a refusal
// `refused N P`, nothing more `nothing`. Behind such an answer the case goes on while it has reads that are not brought in, but ends with a second one
// if no read was played in between. Then `end MESSAGES CONSUMED`. A list that is none, or that ends inside a case, ends the program with `bad case
// list` on standard error, behind the cases before it; so does a case of more than 262,144 bytes.
//
// A line: fields with a tab between them, each `name=value`. Numbers are in decimal, prices as they are on the wire.
#![tactic(auto)]

ghost use Rattle.std.specs.Prelude.{◌≡◌, ◌+◌, ◌≤◌, length, IfOk};

use flat::{Flat, Said};
use format::{Edition, Reading};
use reads::Place;
use standard::Brought;
use std::io::{Stderr, Stdin, Stdout};
use std::rt::{Env, Files};
use stream::Stream;
use words::Words;

// A write that was not taken, which ends the run.
#[derive(Clone, Copy)]
struct NotTaken;

// The templates of the lines, one behind the other: nothing more, refused, and for each letter from A to Y what comes behind `body=` in the line of a message
// whose body has this tag; none for the letters that are no tag. Last is h's.
fn lines() -> &'static [u8] {
    b"\
        nothing\n{.\
        refused {n} {n}\n{.\
        AddOrder\treference={n}\tside={B=Buy,S=Sell,}\tshares={n}\tstock={8}\tprice={n}\tmpid=None\n{.\
        BrokenTrade\tmatch_number={n}\n{.\
        OrderExecutedWithPrice\treference={n}\texecuted={n}\tmatch_number={n}\tprintable={Y=true,N=false,}\tprice={n}\n{.\
        DeleteOrder\treference={n}\n{.\
        OrderExecuted\treference={n}\texecuted={n}\tmatch_number={n}\n{.\
        AddOrder\treference={n}\tside={B=Buy,S=Sell,}\tshares={n}\tstock={8}\tprice={n}\tmpid=Some({4})\n{.\
        {.\
        TradingAction\tstock={8}\ttrading_state={H=Halted,P=Paused,Q=QuotationOnly,T=Trading,}\treserved={1}\treason={4}\n{.\
        Imbalance\tpaired_shares={n}\timbalance_shares={n}\timbalance_direction={B=Buy,S=Sell,N=NoImbalance,O=InsufficientOrders,}\tstock={8}\
            \tfar_price={n}\tnear_price={n}\tcurrent_ref_price={n}\tcross_type={O=Opening,C=Closing,H=IpoOrHalted,I=Intraday,A=ExtendedTradingClose,}\
            \tprice_variation_indicator={1}\n{.\
        LULDAuctionCollar\tstock={8}\tref_price={n}\tupper_price={n}\tlower_price={n}\textension={n}\n{.\
        IpoQuotingPeriod\tstock={8}\trelease_time={n}\trelease_qualifier={A=Anticipated,C=Cancelled,}\tprice={n}\n{.\
        ParticipantPosition\tmpid={4}\tstock={8}\tprimary_market_maker={Y=true,N=false,}\tmarket_maker_mode={N=Normal,P=Passive,S=Syndicate,\
            R=Presyndicate,L=Penalty,}\tmarket_participant_state={A=Active,E=Excused,W=Withdrawn,S=Suspended,D=Deleted,}\n{.\
        {.\
        RetailPriceImprovementIndicator\tstock={8}\tinterest_flag={B=RPIAvailableBuySide,S=RPIAvailableSellSide,A=RPIAvailableBothSides,\
            N=RPINoneAvailable,}\n{.\
        DirectListing\tstock={8}\topen_eligibility={Y=true,N=false,}\tminimum_price={n}\tmaximum_price={n}\tnear_execution_price={n}\
            \tnear_execution_time={n}\tlower_collar={n}\tupper_collar={n}\n{.\
        NonCrossTrade\treference={n}\tside={B=Buy,S=Sell,}\tshares={n}\tstock={8}\tprice={n}\tmatch_number={n}\n{.\
        CrossTrade\tshares={n}\tstock={8}\tcross_price={n}\tmatch_number={n}\tcross_type={O=Opening,C=Closing,H=IpoOrHalted,I=Intraday,\
            A=ExtendedTradingClose,}\n{.\
        StockDirectory\tstock={8}\tmarket_category={Q=NasdaqGlobalSelect,G=NasdaqGlobalMarket,S=NasdaqCapitalMarket,N=Nyse,A=NyseMkt,P=NyseArca,\
            Z=BatsZExchange,V=InvestorsExchange, =Unavailable,}\tfinancial_status={N=Normal,D=Deficient,E=Delinquent,Q=Bankrupt,S=Suspended,\
            G=DeficientBankrupt,H=DeficientDelinquent,J=DelinquentBankrupt,K=DeficientDelinquentBankrupt,C=EtpSuspended, =Unavailable,}\
            \tround_lot_size={n}\tround_lots_only={Y=true,N=false,}\tissue_classification={A=AmericanDepositaryShare,B=Bond,C=CommonStock,\
            F=DepositoryReceipt,I=A144,L=LimitedPartnership,N=Notes,O=OrdinaryShare,P=PreferredStock,Q=OtherSecurities,R=Right,\
            S=SharesOfBeneficialInterest,T=ConvertibleDebenture,U=Unit,V=UnitsPerBenifInt,W=Warrant,}\tissue_subtype={A =PreferredTrustSecurities,\
            AI=AlphaIndexETNs,B =IndexBasedDerivative,C =CommonShares,CB=CommodityBasedTrustShares,CF=CommodityFuturesTrustShares,\
            CL=CommodityLinkedSecurities,CM=CommodityIndexTrustShares,CO=CollateralizedMortgageObligation,CT=CurrencyTrustShares,\
            CU=CommodityCurrencyLinkedSecurities,CW=CurrencyWarrants,D =GlobalDepositaryShares,E =ETFPortfolioDepositaryReceipt,EG=EquityGoldShares,\
            EI=ETNEquityIndexLinkedSecurities,EM=ExchangeTradedManagedFunds,EN=ExchangeTradedNotes,EU=EquityUnits,F =Holdrs,\
            FI=ETNFixedIncomeLinkedSecurities,FL=ETNFuturesLinkedSecurities,G =GlobalShares,I =ETFIndexFundShares,IR=InterestRate,IW=IndexWarrant,\
            IX=IndexLinkedExchangeableNotes,J =CorporateBackedTrustSecurity,L =ContingentLitigationRight,LL=Llc,M =EquityBasedDerivative,\
            MF=ManagedFundShares,ML=ETNMultiFactorIndexLinkedSecurities,MT=ManagedTrustSecurities,N =NYRegistryShares,O =OpenEndedMutualFund,\
            P =PrivatelyHeldSecurity,PP=PoisonPill,PU=PartnershipUnits,Q =ClosedEndFunds,R =RegS,RC=CommodityRedeemableCommodityLinkedSecurities,\
            RF=ETNRedeemableFuturesLinkedSecurities,RT=REIT,RU=CommodityRedeemableCurrencyLinkedSecurities,S =Seed,SC=SpotRateClosing,\
            SI=SpotRateIntraday,T =TrackingStock,TC=TrustCertificates,TU=TrustUnits,U =Portal,V =ContingentValueRight,W =TrustIssuedReceipts,\
            WC=WorldCurrencyOption,X =Trust,Y =Other,Z =NotApplicable,}\tauthenticity={P=true,T=false,}\tshort_sale_threshold={Y=Some(true),\
            N=Some(false), =None,}\tipo_flag={Y=Some(true),N=Some(false), =None,}\tluld_ref_price_tier={1=Tier1,2=Tier2, =Na,}\
            \tetp_flag={Y=Some(true),N=Some(false),M=M, =None,}\tetp_leverage_factor={n}\tinverse_indicator={Y=true,N=false,}\n{.\
        SystemEvent\tevent={O=StartOfMessages,S=StartOfSystemHours,Q=StartOfMarketHours,M=EndOfMarketHours,E=EndOfSystemHours,C=EndOfMessages,}\
            \n{.\
        {.\
        ReplaceOrder\told_reference={n}\tnew_reference={n}\tshares={n}\tprice={n}\n{.\
        MwcbDeclineLevel\tlevel1={n}\tlevel2={n}\tlevel3={n}\n{.\
        Breach\tlevel={1=L1,2=L2,3=L3,}\n{.\
        OrderCancelled\treference={n}\tcancelled={n}\n{.\
        RegShoRestriction\tstock={8}\taction={0=None,1=Intraday,2=Extant,}\n{.\
        OperationalHalt\tstock={8}\tmarket_code={Q=Nasdaq,B=Bx,X=Psx,}\taction={H=Halted,T=Resumed,}\n{."
}

// ---- the lines

// Lines on their way to standard output: what stands before `at` is not written yet. There is always room for a line, since the templates and their
// values take less than a line is given below.
#[derive(Drop)]
struct Page {
    output: Stdout,
    table: &'static [u8],
    starts: [usize; 32],
    bytes: [u8; 65536],
    at: usize,
    ghost inside: { at ≤ 65536 },
}

impl Page {
    fn new(output: Stdout) -> Page {
        let table = lines();
        Page {
            output,
            table,
            starts: templates::starts_of(table),
            bytes: [0; 65536],
            at: 0,
        }
    }

    // Hands what stands there to the write calls.
    fn flush(&mut self) -> Result<(), NotTaken>
        ensures { self.new.at ≡ 0 }
    {
        let taken = standard::print(self.output, &self.bytes[..self.at]);
        self.at = 0;
        if taken { Ok(()) } else { Err(NotTaken) }
    }

    // Room for a line: what is there is written, if there is too little.
    fn make_room(&mut self) -> Result<(), NotTaken>
        ensures { IfOk result (λ _. self.new.at + 6144 ≤ 65536) }
    {
        if self.bytes.len() - self.at < 6144 {
            self.flush()?;
        }
        Ok(())
    }

    // Puts the template that begins at a place of a table.
    fn put(&mut self, table: &[u8], start: usize, v: &[u64]) {
        self.at = templates::put(table, start, v, &mut self.bytes, self.at);
    }

    // Puts the table's template of this number, counted from 0.
    fn put_template(&mut self, k: usize, v: &[u64]) {
        if let Some(&start) = self.starts.get(k) {
            self.put(self.table, start, v);
        }
    }

    // The line of a message: its header, and the template of its body's letter. Those stand from A on behind the first two, and h's behind Y's.
    fn message(&mut self, v: &[u64; 19]) {
        self.put(
            b"tag={1}\tstock_locate={n}\ttracking_number={n}\ttimestamp={n}\tbody={.",
            0,
            &v[..4],
        );
        let k = match v[4] {
            104 => 27,
            letter => letter.saturating_sub(65).saturating_add(2),
        };
        self.put_template(k as usize, &v[5..]);
    }

    // The line of an answer that has one: a message's, nothing more and refused.
    fn line(&mut self, said: &Said) -> Result<(), NotTaken> {
        self.make_room()?;
        match said {
            Said::Message(v) => self.message(v),
            Said::Nothing => self.put_template(0, &[]),
            Said::Refused(number, place) => self.put_template(
                1,
                &[u64::from(*number), *place as u64],
            ),
            Said::Wants | Said::Ready => {}
        }
        Ok(())
    }

    // What `show` prints last; nothing more has number and place 0.
    fn closing(&mut self, f: &Flat) -> Result<(), NotTaken> {
        self.make_room()?;
        let (number, place) = match f.said {
            Said::Refused(number, place) => (u64::from(number), place as u64),
            _ => (0, 0),
        };
        self.put(
            b"messages {n}\nconsumed {n}\nstopped {n} {n}\n{.",
            0,
            &[f.state.messages, stream::consumed(f.state), number, place],
        );
        self.flush()
    }

    // The last line of a case.
    fn end_line(&mut self, s: Stream) -> Result<(), NotTaken> {
        self.make_room()?;
        self.put(b"end {n} {n}\n{.", 0, &[s.messages, stream::consumed(s)]);
        Ok(())
    }
}

// ---- the reads

// What a run reads.
trait Source {
    // One read into the free part of a buffer: how many bytes it brought, or none where it failed.
    fn bring(&mut self, free: &mut [u8]) -> Option<usize>;
}

// Standard input, read as a stream.
#[derive(Drop)]
struct Input(Stdin);

impl Source for Input {
    fn bring(&mut self, free: &mut [u8]) -> Option<usize> {
        standard::read(self.0, Brought::unread(), free).last().ok()
    }
}

// The reads of a case of the list, from the place on.
#[derive(Drop)]
struct Case<'a> {
    list: &'a [u8],
    place: Place,
}

impl Source for Case<'_> {
    fn bring(&mut self, free: &mut [u8]) -> Option<usize> {
        let r = reads::next_read(self.list, self.place, free);
        self.place = r.place;
        r.came
    }
}

// ---- the runs

// A run of the stream: its reading, its buffer and its last answer.
#[derive(Drop)]
struct Run {
    reading: Reading,
    buf: [u8; 8192],
    last: Flat,
}

impl Run {
    fn fresh(reading: Reading) -> Run {
        Run {
            reading,
            buf: [0; 8192],
            last: Flat {
                state: stream::fresh(),
                said: Said::Nothing,
            },
        }
    }

    // Takes the window's messages and puts their lines, to the first answer that is none.
    fn drain(&mut self, page: &mut Page) -> Result<(), NotTaken> {
        loop {
            self.last = flat::next(self.last.state, &self.buf, self.reading);
            let Said::Message(_) = self.last.said else {
                return Ok(());
            };
            page.line(&self.last.said)?;
        }
    }

    // Where the stream wants bytes there is a read: room is made, the free part of the buffer is handed on for it, and the state is told what came of it.
    // Any other answer stays. Says whether there was a read.
    fn feed(&mut self, source: &mut impl Source) -> bool {
        let Said::Wants = self.last.said else {
            return false;
        };
        self.last = flat::make_room(self.last.state, &mut self.buf);
        let Said::Ready = self.last.said else {
            return false;
        };
        let state = self.last.state;
        self.last = match source.bring(&mut self.buf[state.end..]) {
            Some(n) => flat::told(state, n),
            None => flat::told_failed(state),
        };
        true
    }

    // Tries next, to an answer that is no message, and reads where it wants bytes. Says whether there was a read.
    fn turn(&mut self, source: &mut impl Source, page: &mut Page) -> Result<bool, NotTaken> {
        self.drain(page)?;
        Ok(self.feed(source))
    }

    // Standard input, to its first refusal or its end. No input has as many turns as are allowed.
    fn show(&mut self, input: Stdin, page: &mut Page) -> Result<(), NotTaken> {
        let mut source = Input(input);
        for _ in 0..u64::MAX {
            self.turn(&mut source, page)?;
            let Said::Ready = self.last.said else {
                break;
            };
        }
        Ok(())
    }

    // A case. Behind a refusal or nothing more it goes on while it has reads that are not brought in, but not behind a second one without a read in between.
    fn play(&mut self, mut case: Case, page: &mut Page) -> Result<(), NotTaken> {
        let mut silent = false;
        for _ in 0..u64::MAX {
            let read = self.turn(&mut case, page)?;
            if let Said::Ready = self.last.said {
                silent = false;
                continue;
            }
            page.line(&self.last.said)?;
            if (silent && !read) || !reads::has_more(case.list, case.place) {
                break;
            }
            silent = true;
        }
        Ok(())
    }

    // The number that it stopped with: a refusal's, and 0 at a clean end; where a write failed, the tag of the message whose line was to be put.
    fn number(&self) -> u8 {
        match self.last.said {
            Said::Refused(number, _) => number,
            Said::Message(v) => u8::try_from(v[0]).unwrap_or(u8::MAX),
            _ => 0,
        }
    }
}

// ---- the program `show`

// Standard input's lines, and the closing ones.
fn show_input(run: &mut Run, input: Stdin, page: &mut Page) -> Result<(), NotTaken> {
    run.show(input, page)?;
    page.closing(&run.last)
}

// Shows standard input, and says how it went.
fn show_all(rt: &impl Files, input: Stdin, output: Stdout, error: Stderr, words: Words) {
    let mut page = Page::new(output);
    let mut run = Run::fresh(Reading::from(words));
    let taken = show_input(&mut run, input, &mut page).is_ok();
    words::finish(
        rt,
        error,
        words,
        b"show",
        words::stop_by(run.number()),
        stream::consumed(run.last.state),
        taken,
    );
}

// The program `show`: what the words ask for, and nothing where they are none.
pub fn show(rt: &(impl Env + Files), input: Stdin, output: Stdout, error: Stderr) {
    let w = words::asked(rt, false);
    if w.known {
        show_all(rt, input, output, error, w);
    } else {
        words::misuse(
            rt,
            error,
            w,
            b"show: its words are later, strict and status\n",
        );
    }
}

// ---- the program `cases`

// The case between two places of the list, from a fresh stream on; the place behind it.
fn one_case(
    list: &[u8],
    i: usize,
    end: usize,
    reading: Reading,
    page: &mut Page,
) -> Result<usize, NotTaken>
    ensures { IfOk result (λ n. n ≡ end) }
{
    let place = Place { i, left: 0 };
    let mut run = Run::fresh(reading);
    run.play(Case { list, place }, page)?;
    page.end_line(run.last.state)?;
    Ok(end)
}

// The whole cases that a list begins with; the place behind them.
fn whole_cases(list: &[u8], reading: Reading, page: &mut Page) -> Result<usize, NotTaken>
    ensures { IfOk result (λ i. i ≤ length list.now) }
{
    let mut i = 0;
    loop {
        let end = reads::case_end(list, i);
        if end <= i {
            return Ok(i);
        }
        i = one_case(list, i, end, reading, page)?;
    }
}

// The bytes of the list that are held, `n` of them: from the first case that is not played on. There is room for the longest case.
#[derive(Drop)]
struct Held {
    bytes: [u8; 262144],
    n: usize,
    ghost inside: { n ≤ 262144 },
}

impl Held {
    fn none() -> Held {
        Held {
            bytes: [0; 262144],
            n: 0,
        }
    }

    // Reads on in the list. Where no bytes come, or there is no room for any, it has ended.
    fn more(&mut self, input: Stdin) -> bool {
        let b = standard::read(input, Brought::unread(), &mut self.bytes[self.n..]);
        let came = b.count();
        self.n += came;
        came > 0
    }

    // Plays the whole cases that are held.
    fn play(&mut self, reading: Reading, page: &mut Page) -> Result<(), NotTaken> {
        let from = whole_cases(&self.bytes[..self.n], reading, page)?;
        self.bytes.copy_within(from..self.n, 0);
        self.n -= from;
        Ok(())
    }
}

// Plays the cases of standard input, to its end. No input has as many reads as are allowed.
fn case_all(
    input: Stdin,
    error: Stderr,
    reading: Reading,
    page: &mut Page,
) -> Result<(), NotTaken> {
    let mut held = Held::none();
    for _ in 0..u64::MAX {
        if !held.more(input) {
            break;
        }
        held.play(reading, page)?;
    }
    if held.n > 0 {
        let _ = error.println("cases: bad case list");
    }
    page.flush()
}

// The program `cases`, which has no words: it reads by the old edition and not strictly, as the Rust does.
pub fn cases(input: Stdin, output: Stdout, error: Stderr) {
    let reading = Reading {
        edition: Edition::Old,
        strict: false,
    };
    let mut page = Page::new(output);
    if case_all(input, error, reading, &mut page).is_err() {
        let _ = error.println("cases: a write failed");
    }
}
