//! Every kind of record behind one interface: its mark, its head's length, its fields.
ghost use Rattle.std.specs.Prelude.{◌≡◌, ℕ, ◌+◌, ◌<◌, ◌≤◌, Bool, true, List, [], length, take};
ghost use Rattle.tariff.specs.Options.{when};
ghost use Rattle.calls.specs.declared.fields.Call.{Call};
ghost use Rattle.calls.specs.declared.fields.Call.TheVariants.{BeginMonth, OpenAccount, MoveAccount, SetGasCost, SetPrice, BeginDay, Nominate, EndDay, Reallocate, Read, Settle, Close, Post};
ghost use Rattle.calls.specs.Limits.{month_begin_within, opening_within, move_within, gas_cost_within, price_within, day_begin_within, nomination_within, day_end_within, reallocation_within, reading_within, settle_within, closing_within, posting_within};
ghost use Rattle.feed.specs.Numbers.{Bytes, num2, num4, num1, one, two, four};
ghost use Rattle.feed.specs.Marks.{mark_mb, mark_ac, mark_mv, mark_gc, mark_pr, mark_bd, mark_nm, mark_ed, mark_rl, mark_mr, mark_sd, mark_cm, mark_ps};
ghost use Rattle.feed.specs.Fields.{month_begin_of, month_begin_bytes, opening_of, opening_bytes, move_of, move_bytes, gas_cost_of, gas_cost_bytes, price_of, price_bytes, day_begin_of, day_begin_bytes, nomination_of, nomination_bytes, day_end_of, day_end_bytes, reallocation_of, reallocation_bytes, reading_of, reading_bytes, settle_of, settle_bytes, closing_of, closing_bytes, posting_of, posting_bytes, lines_tail};
ghost use Rattle.feed.specs.Records.{no_tail};
ghost use Rattle.feed.specs.Spread.{spread_at, two_num2, four_num4};
ghost use Rattle.std.proofs.Common.{rules};
ghost use Rattle.feed.specs.Reallocations;

use crate::lines::{read_line, read_lines};
use crate::numbers::{be16, be32};
use calls::fields::{
    AccountMove, AccountOpening, Call, DayBegin, DayEnd, DaySettle, GasCost, MAX_SHIFTS,
    MeterReading, MonthBegin, MonthClosing, Nomination, PostedMaxima, PriceQuote, Reallocation,
};
use calls::limits::checked;

/// A kind of record.
pub(crate) trait Kind {
    type Fields;

    // The two bytes that begin a record.
    ghost MARK: { List ℕ };

    const MARK: [u8; 2];

    // How many bytes its head has behind them.
    ghost HEAD: { ℕ };

    const HEAD: usize;

    // How many bytes follow a head.
    ghost tails: { List ℕ → ℕ };

    // What the bytes behind a mark say, whether that is within the limits, and the call that it makes.
    ghost decode: { List ℕ → Self.Fields };

    ghost within: { Self.Fields → Bool };

    ghost calls: { Self.Fields → Call };

    // The bytes behind a mark that say fields.
    ghost spelt: { Self.Fields → List ℕ };

    // A body of the trait's own is proved for any `tails`, so it cannot be the 0 of the kinds with none.
    fn tail_len(head: &[u8]) -> usize
        requires { length head.now ≡ HEAD }
        ensures value { result ≡ tails head.now }
        ensures bound { result < 65536 };

    fn read(body: &[u8]) -> Option<Self::Fields>
        requires { length body.now ≡ HEAD + tails (take HEAD body.now) }
        ensures { result ≡ when (within (decode body.now)) (decode body.now) };

    // A `From` for each kind would be no plainer: thirteen blocks more, for the reader alone.
    fn call(fields: Self::Fields) -> Call
        ensures { result ≡ calls fields };

    // Bytes that say fields are as long as their head tells.
    ghost sized: { (f : Self.Fields) → within f ≡ true → length (spelt f) ≡ HEAD + tails (take HEAD (spelt f)) };

    // Fields are what their bytes say.
    ghost reads: { (f : Self.Fields) → within f ≡ true → decode (spelt f) ≡ f };

    // Bytes are those of what they say.
    ghost writes: { (bs : List ℕ) → Bytes bs → length bs ≡ HEAD + tails (take HEAD bs) → within (decode bs) ≡ true → spelt (decode bs) ≡ bs };
}

/// Month begin.
pub(crate) struct Mb;

impl Kind for Mb {
    type Fields = MonthBegin;

    ghost MARK = { mark_mb };

    const MARK: [u8; 2] = [b'M', b'B'];

    ghost HEAD = { 5 };

    const HEAD: usize = 5;

    ghost tails = { no_tail };

    ghost decode = { month_begin_of };

    ghost within = { month_begin_within };

    ghost calls = { λ f. BeginMonth f };

    ghost spelt = { month_begin_bytes };

    ghost sized = { Prim.search rules };

    ghost reads = { Prim.search rules };

    ghost writes = { λ bs bytes size within.
        let e0 = two_num2 bs bytes 0 (one (num1 bs 2) (two (num2 bs 3) [])) in
        let e3 = two_num2 bs bytes 3 [] in
        let s = spread_at 5 bs size in
        cc };

    fn tail_len(head: &[u8]) -> usize {
        0
    }

    fn read(body: &[u8]) -> Option<MonthBegin> {
        checked(MonthBegin {
            year: be16(body, 0),
            month: body[2],
            loss: be16(body, 3),
        })
    }

    fn call(fields: MonthBegin) -> Call {
        Call::BeginMonth(fields)
    }
}

/// Account.
pub(crate) struct Ac;

impl Kind for Ac {
    type Fields = AccountOpening;

    ghost MARK = { mark_ac };

    const MARK: [u8; 2] = [b'A', b'C'];

    ghost HEAD = { 14 };

    const HEAD: usize = 14;

    ghost tails = { no_tail };

    ghost decode = { opening_of };

    ghost within = { opening_within };

    ghost calls = { λ f. OpenAccount f };

    ghost spelt = { opening_bytes };

    ghost sized = { Prim.search rules };

    ghost reads = { Prim.search rules };

    ghost writes = { λ bs bytes size within.
        let e0 = four_num4 bs bytes 0 (two (num2 bs 4) (four (num4 bs 6) (four (num4 bs 10) []))) in
        let e4 = two_num2 bs bytes 4 (four (num4 bs 6) (four (num4 bs 10) [])) in
        let e6 = four_num4 bs bytes 6 (four (num4 bs 10) []) in
        let e10 = four_num4 bs bytes 10 [] in
        let s = spread_at 14 bs size in
        cc };

    fn tail_len(head: &[u8]) -> usize {
        0
    }

    fn read(body: &[u8]) -> Option<AccountOpening> {
        checked(AccountOpening {
            account: be32(body, 0),
            supplier: be16(body, 4),
            capacity: be32(body, 6),
            storage: be32(body, 10),
        })
    }

    fn call(fields: AccountOpening) -> Call {
        Call::OpenAccount(fields)
    }
}

/// Move.
pub(crate) struct Mv;

impl Kind for Mv {
    type Fields = AccountMove;

    ghost MARK = { mark_mv };

    const MARK: [u8; 2] = [b'M', b'V'];

    ghost HEAD = { 6 };

    const HEAD: usize = 6;

    ghost tails = { no_tail };

    ghost decode = { move_of };

    ghost within = { move_within };

    ghost calls = { λ f. MoveAccount f };

    ghost spelt = { move_bytes };

    ghost sized = { Prim.search rules };

    ghost reads = { Prim.search rules };

    ghost writes = { λ bs bytes size within.
        let e0 = four_num4 bs bytes 0 (two (num2 bs 4) []) in
        let e4 = two_num2 bs bytes 4 [] in
        let s = spread_at 6 bs size in
        cc };

    fn tail_len(head: &[u8]) -> usize {
        0
    }

    fn read(body: &[u8]) -> Option<AccountMove> {
        checked(AccountMove {
            account: be32(body, 0),
            supplier: be16(body, 4),
        })
    }

    fn call(fields: AccountMove) -> Call {
        Call::MoveAccount(fields)
    }
}

/// Gas cost.
pub(crate) struct Gc;

impl Kind for Gc {
    type Fields = GasCost;

    ghost MARK = { mark_gc };

    const MARK: [u8; 2] = [b'G', b'C'];

    ghost HEAD = { 4 };

    const HEAD: usize = 4;

    ghost tails = { no_tail };

    ghost decode = { gas_cost_of };

    ghost within = { gas_cost_within };

    ghost calls = { λ f. SetGasCost f };

    ghost spelt = { gas_cost_bytes };

    ghost sized = { Prim.search rules };

    ghost reads = { Prim.search rules };

    ghost writes = { λ bs bytes size within.
        let e0 = four_num4 bs bytes 0 [] in
        let s = spread_at 4 bs size in
        cc };

    fn tail_len(head: &[u8]) -> usize {
        0
    }

    fn read(body: &[u8]) -> Option<GasCost> {
        checked(GasCost {
            gas_cost: be32(body, 0),
        })
    }

    fn call(fields: GasCost) -> Call {
        Call::SetGasCost(fields)
    }
}

/// Price.
pub(crate) struct Pr;

impl Kind for Pr {
    type Fields = PriceQuote;

    ghost MARK = { mark_pr };

    const MARK: [u8; 2] = [b'P', b'R'];

    ghost HEAD = { 9 };

    const HEAD: usize = 9;

    ghost tails = { no_tail };

    ghost decode = { price_of };

    ghost within = { price_within };

    ghost calls = { λ f. SetPrice f };

    ghost spelt = { price_bytes };

    ghost sized = { Prim.search rules };

    ghost reads = { Prim.search rules };

    ghost writes = { λ bs bytes size within.
        let e1 = four_num4 bs bytes 1 (four (num4 bs 5) []) in
        let e5 = four_num4 bs bytes 5 [] in
        let s = spread_at 9 bs size in
        cc };

    fn tail_len(head: &[u8]) -> usize {
        0
    }

    fn read(body: &[u8]) -> Option<PriceQuote> {
        checked(PriceQuote {
            day: body[0],
            index: be32(body, 1),
            market: be32(body, 5),
        })
    }

    fn call(fields: PriceQuote) -> Call {
        Call::SetPrice(fields)
    }
}

/// Day begin.
pub(crate) struct Bd;

impl Kind for Bd {
    type Fields = DayBegin;

    ghost MARK = { mark_bd };

    const MARK: [u8; 2] = [b'B', b'D'];

    ghost HEAD = { 2 };

    const HEAD: usize = 2;

    ghost tails = { no_tail };

    ghost decode = { day_begin_of };

    ghost within = { day_begin_within };

    ghost calls = { λ f. BeginDay f };

    ghost spelt = { day_begin_bytes };

    ghost sized = { Prim.search rules };

    ghost reads = { Prim.search rules };

    ghost writes = { λ bs bytes size within.
        let s = spread_at 2 bs size in
        cc };

    fn tail_len(head: &[u8]) -> usize {
        0
    }

    fn read(body: &[u8]) -> Option<DayBegin> {
        checked(DayBegin {
            day: body[0],
            kind: body[1],
        })
    }

    fn call(fields: DayBegin) -> Call {
        Call::BeginDay(fields)
    }
}

/// Nomination.
pub(crate) struct Nm;

impl Kind for Nm {
    type Fields = Nomination;

    ghost MARK = { mark_nm };

    const MARK: [u8; 2] = [b'N', b'M'];

    ghost HEAD = { 11 };

    const HEAD: usize = 11;

    ghost tails = { no_tail };

    ghost decode = { nomination_of };

    ghost within = { nomination_within };

    ghost calls = { λ f. Nominate f };

    ghost spelt = { nomination_bytes };

    ghost sized = { Prim.search rules };

    ghost reads = { Prim.search rules };

    ghost writes = { λ bs bytes size within.
        let e0 = four_num4 bs bytes 0 (one (num1 bs 4) (four (num4 bs 5) (two (num2 bs 9) []))) in
        let e5 = four_num4 bs bytes 5 (two (num2 bs 9) []) in
        let e9 = two_num2 bs bytes 9 [] in
        let s = spread_at 11 bs size in
        cc };

    fn tail_len(head: &[u8]) -> usize {
        0
    }

    fn read(body: &[u8]) -> Option<Nomination> {
        checked(Nomination {
            line: read_line(body),
            minute: be16(body, 9),
        })
    }

    fn call(fields: Nomination) -> Call {
        Call::Nominate(fields)
    }
}

/// Day end.
pub(crate) struct Ed;

impl Kind for Ed {
    type Fields = DayEnd;

    ghost MARK = { mark_ed };

    const MARK: [u8; 2] = [b'E', b'D'];

    ghost HEAD = { 0 };

    const HEAD: usize = 0;

    ghost tails = { no_tail };

    ghost decode = { day_end_of };

    ghost within = { day_end_within };

    ghost calls = { λ f. EndDay f };

    ghost spelt = { day_end_bytes };

    ghost sized = { Prim.search rules };

    ghost reads = { Prim.search rules };

    ghost writes = { λ bs bytes size within. spread_at 0 bs size };

    fn tail_len(head: &[u8]) -> usize {
        0
    }

    fn read(body: &[u8]) -> Option<DayEnd> {
        checked(DayEnd {})
    }

    fn call(fields: DayEnd) -> Call {
        Call::EndDay(fields)
    }
}

/// Reallocation.
pub(crate) struct Rl;

impl Kind for Rl {
    type Fields = Reallocation;

    ghost MARK = { mark_rl };

    const MARK: [u8; 2] = [b'R', b'L'];

    ghost HEAD = { 5 };

    const HEAD: usize = 5;

    ghost tails = { lines_tail };

    ghost decode = { reallocation_of };

    ghost within = { reallocation_within };

    ghost calls = { λ f. Reallocate f };

    ghost spelt = { reallocation_bytes };

    ghost sized = { Reallocations.sized };

    ghost reads = { Reallocations.reads };

    ghost writes = { λ bs bytes size within. Reallocations.writes bs bytes size };

    fn tail_len(head: &[u8]) -> usize {
        9 * usize::from(head[4])
    }

    fn read(body: &[u8]) -> Option<Reallocation> {
        let count = body[4];
        // Past the most lines there is no place to read one into.
        if count > MAX_SHIFTS {
            return None;
        }
        checked(Reallocation {
            supplier: be16(body, 0),
            minute: be16(body, 2),
            count,
            lines: read_lines(&body[5..], count),
        })
    }

    fn call(fields: Reallocation) -> Call {
        Call::Reallocate(fields)
    }
}

/// Meter reading.
pub(crate) struct Mr;

impl Kind for Mr {
    type Fields = MeterReading;

    ghost MARK = { mark_mr };

    const MARK: [u8; 2] = [b'M', b'R'];

    ghost HEAD = { 8 };

    const HEAD: usize = 8;

    ghost tails = { no_tail };

    ghost decode = { reading_of };

    ghost within = { reading_within };

    ghost calls = { λ f. Read f };

    ghost spelt = { reading_bytes };

    ghost sized = { Prim.search rules };

    ghost reads = { Prim.search rules };

    ghost writes = { λ bs bytes size within.
        let e0 = four_num4 bs bytes 0 (four (num4 bs 4) []) in
        let e4 = four_num4 bs bytes 4 [] in
        let s = spread_at 8 bs size in
        cc };

    fn tail_len(head: &[u8]) -> usize {
        0
    }

    fn read(body: &[u8]) -> Option<MeterReading> {
        checked(MeterReading {
            account: be32(body, 0),
            therms: be32(body, 4),
        })
    }

    fn call(fields: MeterReading) -> Call {
        Call::Read(fields)
    }
}

/// Settle the day.
pub(crate) struct Sd;

impl Kind for Sd {
    type Fields = DaySettle;

    ghost MARK = { mark_sd };

    const MARK: [u8; 2] = [b'S', b'D'];

    ghost HEAD = { 0 };

    const HEAD: usize = 0;

    ghost tails = { no_tail };

    ghost decode = { settle_of };

    ghost within = { settle_within };

    ghost calls = { λ f. Settle f };

    ghost spelt = { settle_bytes };

    ghost sized = { Prim.search rules };

    ghost reads = { Prim.search rules };

    ghost writes = { λ bs bytes size within. spread_at 0 bs size };

    fn tail_len(head: &[u8]) -> usize {
        0
    }

    fn read(body: &[u8]) -> Option<DaySettle> {
        checked(DaySettle {})
    }

    fn call(fields: DaySettle) -> Call {
        Call::Settle(fields)
    }
}

/// Close the month.
pub(crate) struct Cm;

impl Kind for Cm {
    type Fields = MonthClosing;

    ghost MARK = { mark_cm };

    const MARK: [u8; 2] = [b'C', b'M'];

    ghost HEAD = { 0 };

    const HEAD: usize = 0;

    ghost tails = { no_tail };

    ghost decode = { closing_of };

    ghost within = { closing_within };

    ghost calls = { λ f. Close f };

    ghost spelt = { closing_bytes };

    ghost sized = { Prim.search rules };

    ghost reads = { Prim.search rules };

    ghost writes = { λ bs bytes size within. spread_at 0 bs size };

    fn tail_len(head: &[u8]) -> usize {
        0
    }

    fn read(body: &[u8]) -> Option<MonthClosing> {
        checked(MonthClosing {})
    }

    fn call(fields: MonthClosing) -> Call {
        Call::Close(fields)
    }
}

/// Posting.
pub(crate) struct Ps;

impl Kind for Ps {
    type Fields = PostedMaxima;

    ghost MARK = { mark_ps };

    const MARK: [u8; 2] = [b'P', b'S'];

    ghost HEAD = { 5 };

    const HEAD: usize = 5;

    ghost tails = { no_tail };

    ghost decode = { posting_of };

    ghost within = { posting_within };

    ghost calls = { λ f. Post f };

    ghost spelt = { posting_bytes };

    ghost sized = { Prim.search rules };

    ghost reads = { Prim.search rules };

    ghost writes = { λ bs bytes size within.
        let e1 = two_num2 bs bytes 1 (two (num2 bs 3) []) in
        let e3 = two_num2 bs bytes 3 [] in
        let s = spread_at 5 bs size in
        cc };

    fn tail_len(head: &[u8]) -> usize {
        0
    }

    fn read(body: &[u8]) -> Option<PostedMaxima> {
        checked(PostedMaxima {
            day: body[0],
            max_injection: be16(body, 1),
            max_withdrawal: be16(body, 3),
        })
    }

    fn call(fields: PostedMaxima) -> Call {
        Call::Post(fields)
    }
}
