// One tuner: a lead, the list of its take and up to three voices, and its calls. Each call is over a record that is lent, whatever bytes it holds.

#![tactic(auto)]

ghost use Rattle.std.specs.Prelude.{◌≡◌, cond, eqb, List, ◌+◌, ◌≤◌, ◌<◌, ℤ, pos, length, get_or, take, IfOk};
ghost use Rattle.whole.specs.Tests.{Decides};
ghost use Rattle.refusals.specs.Refusals.{number_of};
ghost use Rattle.rules.specs.Rules.{farthest, take_limit, longest_block, kept_samples};
ghost use Rattle.rules.specs.Facts.{SampleRate};
ghost use Rattle.answers.specs.Numbering.{judged_number};
ghost use Rattle.lists.specs.Lists.{sheet, ListingIn};
ghost use Rattle.lists.specs.Counting.{counted};
ghost use Rattle.lists.specs.Hushes.{hushed};
ghost use Rattle.reading.specs.Gliding.{PacedAll, Glided};
ghost use Rattle.reports.specs.Counting.{distance_in};
ghost use Rattle.voices.specs.Singing.{TrackedAll};
ghost use Rattle.singers.specs.Singers.{kept_interval};
ghost use Rattle.steps.specs.Running.{tones};
ghost use Rattle.steps.specs.Going.{Going};
ghost use Rattle.tuner.specs.Afters.{begins_at};
ghost use Rattle.tuner.specs.Taking.{force_by, Hears, Follows, Followed};
ghost use Rattle.tuner.specs.Following.{RatesUpto, no_out, SangBeside, AllSung, listed_of, four, written_by, given_by, Judged};
ghost use Rattle.tuner.specs.Tuners.{layout_number, kept_places, VoiceIn, VoicesIn, parts, kept_outs, Roomy, written, plain, answer_by, list_after, after_block, Took, Good, level_voice, chosen_voices};
ghost use Rattle.tuner.specs.Tuners.{fresh_numbers, silent_tuner, fresh_tuner, default_tuner, kept_list, store_fits, begin_number, Started, with_settings, with_bytes, begun_again, Changed, Keyed, Reset, Metered, Tested};

mod by_value;

use answers::Turn;
pub use by_value::{Done, Taken, start};
use keyboard::Keyboard;
use lists::Listing;
use meters::Meter;
use pitch::Pitch;
use reading::Growth;
use record::Head;
use refusals::Refusal;
use rules::{
    CD_RATE, EIGHTH_LAGS, InForce, KEPT_EIGHTHS, KEPT_SAMPLES, LONGEST_BLOCK, OPEN_EIGHTHS,
    OPEN_SAMPLES, Settings, Tone,
};
use steps::Progress;
use voices::UNISON;

// The number of this layout of the record.
pub const LAYOUT: u64 = 40000;

// So many voices may be chosen.
pub const MOST_VOICES: u32 = 3;

// What lead and voices keep of the last block: 512 places each, the lead's first.
pub const KEPT_OUTS: usize = 4 * LONGEST_BLOCK;

// A voice: its interval, 0 to 24 for -12 to 12, and how far its position lies behind the input.
#[repr(C)]
#[derive(Clone, Copy)]
pub struct Voice {
    pub interval: u32,
    pub behind: u32,
}

// The last block: its number, its length, 0 where there is none, and what its answer counts.
#[repr(C)]
#[derive(Clone, Copy)]
pub struct Last {
    pub number: u16,
    pub length: u16,
    pub repeated: u16,
    pub dropped: u16,
    pub pitched: u32,
    pub strayed: u32,
}

// All numbers of a record, its arrays apart. 288 bytes, none of them padding.
#[repr(C)]
#[derive(Clone, Copy)]
pub struct Numbers {
    pub layout: u64,
    pub settings: Settings,
    pub hertz: u64,
    pub keyboard: Keyboard,
    pub count: u64,
    pub pitch: Pitch,
    pub behind: u64,
    pub last: Last,
    pub listed: u32,
    pub chosen: u32,
    pub list: Listing,
    pub voices: [Voice; 3],
}

// The record. 10104 bytes, none of them padding.
#[repr(C)]
#[derive(Clone, Copy)]
pub struct Tuner {
    pub numbers: Numbers,
    pub energies: [u64; EIGHTH_LAGS],
    pub correlations: [i64; EIGHTH_LAGS],
    pub heard: [i16; KEPT_SAMPLES],
    pub eighths: [i16; KEPT_EIGHTHS],
    pub outs: [i16; KEPT_OUTS],
}

// Document 01's number and counts; samples with a period, and the sum of the rate's distance from 65536; rows of the list, and those left out.
#[repr(C)]
#[derive(Clone, Copy)]
pub struct Answer {
    pub number: u32,
    pub written: u16,
    pub repeated: u16,
    pub dropped: u16,
    pub pitched: u32,
    pub strayed: u32,
    pub rows: u32,
    pub left: u32,
}

// The tone after each sample of a block: its period, its note and its rate.
#[derive(Clone, Copy)]
struct Tones {
    periods: [u32; LONGEST_BLOCK],
    notes: [u32; LONGEST_BLOCK],
    rates: [u32; LONGEST_BLOCK],
}

// ---- a good record

// The voices that are chosen are in their ranges.
fn voices_right(chosen: u32, vs: &[Voice; 3]) -> bool
    ensures { Decides result (VoicesIn chosen vs.now) }
{
    chosen <= MOST_VOICES
        && vs.iter().take(chosen as usize).all(|v| v.interval <= 2 * UNISON
            && v.behind <= rules::FARTHEST)
}

impl Numbers {
    // The numbers that the lead's rules do not test.
    fn rest_right(&self) -> bool
        ensures { let n = self.now in Decides result ((n.layout ≡ layout_number) × (n.listed ≤ 1) × ListingIn n.count n.list × VoicesIn n.chosen n.voices) }
    {
        self.layout == LAYOUT
            && self.listed <= 1
            && lists::right(self.list, self.count)
            && voices_right(self.chosen, &self.voices)
    }
}

impl Tuner {
    // The record is good.
    pub fn is_good(&self) -> bool
        ensures { Decides result (Good self.now) }
    {
        let n = &self.numbers;
        n.rest_right()
            && record::all_right(
                n.settings,
                n.hertz,
                n.keyboard,
                n.count,
                &self.energies,
                &self.correlations,
                &self.heard,
                &self.eighths,
                n.pitch,
                Head { behind: n.behind },
                n.last.length,
            )
    }

    // A record that is not good is refused before anything else is looked at.
    fn test(&self) -> Result<(), Refusal>
        ensures { Tested self.now result }
    {
        if self.is_good() {
            Ok(())
        } else {
            Err(Refusal::RecordOutOfRange)
        }
    }
}

// ---- answers

// The answer with this number, counts 0, and the list that the numbers have.
pub fn plain(number: u32, list: Listing) -> Answer
    ensures { (n : Numbers) → n.list ≡ list → result ≡ plain number n }
{
    Answer {
        number,
        written: 0,
        repeated: 0,
        dropped: 0,
        pitched: 0,
        strayed: 0,
        rows: list.rows,
        left: list.left,
    }
}

impl Numbers {
    // A block that is not refused is answered with what is then kept of the last block, any other with counts 0.
    fn answer(&self, verdict: Result<Turn, Refusal>) -> Answer
        ensures { result ≡ answer_by (judged_number verdict) self.now.last.length self.now }
    {
        let plain = plain(answers::number(verdict), self.list);
        match verdict {
            Ok(_) => Answer {
                written: self.last.length,
                repeated: self.last.repeated,
                dropped: self.last.dropped,
                pitched: self.last.pitched,
                strayed: self.last.strayed,
                ..plain
            },
            Err(_) => plain,
        }
    }
}

// ---- a block is taken

// Over all these rates, how far they lie from 65536.
fn strayed(rates: &[u32]) -> u32
    requires { (length rates.now ≤ longest_block) × RatesUpto (length rates.now) rates.now }
    ensures { result ≡ distance_in rates.now }
{
    let mut sum: u32 = 0;
    for rate in rates {
        sum += rate.abs_diff(rules::FRESH_RATE);
    }
    sum
}

// Of b samples, those without a period have no note. Where all of them have one, as so many have, there is nothing to hush.
fn hush_if(notes: &mut [u32; LONGEST_BLOCK], periods: &[u32; LONGEST_BLOCK], b: usize, pitched: u32)
    requires { (b ≤ longest_block) × (pitched + counted 0 periods.now b ≡ b) }
    ensures { notes.new ≡ hushed b periods.now notes.old }
{
    if pitched < b as u32 {
        lists::hush(&mut notes[..b], &periods[..b]);
    }
}

// The list of a tuner that keeps one goes on with the notes sung of b samples, so many of them with a period.
fn listed(
    keeps: u32,
    list: Listing,
    tone: Tone,
    count: u64,
    periods: &[u32; LONGEST_BLOCK],
    notes: &mut [u32; LONGEST_BLOCK],
    b: usize,
    pitched: u32,
    store: &mut [u32],
) -> Listing
    requires { (b ≤ longest_block) × (count + b ≤ take_limit) × ListingIn count list × (pitched + counted 0 periods.now b ≡ b) }
    ensures { sheet result store.new ≡ listed_of keeps tone count list store.old b periods.now notes.old }
{
    if keeps == 0 {
        return list;
    }
    hush_if(notes, periods, b, pitched);
    lists::more(list, lists::sung(tone), &notes[..b], count, store)
}

// A voice sings beside b samples that stand after the first 1764 of s; its output goes to its part of what is kept.
fn sung(
    v: Voice,
    hertz: u32,
    periods: &[u32; LONGEST_BLOCK],
    notes: &[u32; LONGEST_BLOCK],
    s: &[i16],
    b: usize,
    out: &mut [i16],
) -> Voice
    requires { VoiceIn v × SampleRate hertz × TrackedAll b periods.now notes.now × (kept_samples + b ≤ length s.now) × (b ≤ longest_block) × (length out.old ≡ longest_block) }
    ensures { SangBeside hertz periods.now notes.now s.now b v result out.new }
{
    copying::clear(out);
    let behind = voices::sing(
        v.behind,
        hertz,
        v.interval,
        periods,
        notes,
        s,
        KEPT_SAMPLES,
        b,
        out,
    );
    Voice { behind, ..v }
}

// Each voice that is chosen sings, by itself.
fn all_sung(
    chosen: u32,
    vs: &mut [Voice; 3],
    hertz: u32,
    periods: &[u32; LONGEST_BLOCK],
    notes: &[u32; LONGEST_BLOCK],
    s: &[i16],
    b: usize,
    outs: &mut [i16; KEPT_OUTS],
)
    requires { VoicesIn chosen vs.old × SampleRate hertz × TrackedAll b periods.now notes.now × (kept_samples + b ≤ length s.now) × (b ≤ longest_block) }
    ensures { AllSung hertz periods.now notes.now s.now b chosen chosen vs.old outs.old vs.new outs.new }
{
    for j in 0..chosen as usize {
        let from = LONGEST_BLOCK * (j + 1);
        let out = &mut outs[from..from + LONGEST_BLOCK];
        vs[j] = sung(vs[j], hertz, periods, notes, s, b, out);
    }
}

// The lead reads at the rates of b samples; its output goes to its part of what is kept.
fn led(
    behind: u32,
    rates: &[u32; LONGEST_BLOCK],
    periods: &[u32; LONGEST_BLOCK],
    s: &[i16],
    b: usize,
    out: &mut [i16],
) -> Growth
    requires { (behind ≤ farthest) × PacedAll b rates.now periods.now × (kept_samples + b ≤ length s.now) × (b ≤ longest_block) × (length out.old ≡ longest_block) }
    ensures { Glided behind rates.now periods.now s.now kept_samples b no_out out.new result }
{
    copying::clear(out);
    reading::glide(behind, rates, periods, s, KEPT_SAMPLES, b, out)
}

impl Numbers {
    // The samples of s after the first 1764, b of them, are heard: the tone after each.
    fn hear(
        &self,
        y: &mut [i16; OPEN_EIGHTHS],
        e: &mut [u64; EIGHTH_LAGS],
        h: &mut [i64; EIGHTH_LAGS],
        s: &[i16],
        b: usize,
        ts: &mut Tones,
    ) -> Progress
        requires { Hears self.now y.old e.old h.old s.now b (tones ts.old.periods ts.old.notes ts.old.rates) }
        ensures { Going (force_by self.now) s.now kept_samples y.old (tones ts.old.periods ts.old.notes ts.old.rates) (begins_at self.now) b y.new e.new h.new (tones ts.new.periods ts.new.notes ts.new.rates) result }
    {
        let f = InForce {
            settings: self.settings,
            key: self.keyboard.key,
            hertz: self.hertz as u32,
        };
        let p = Progress {
            count: self.count as u32,
            places: KEPT_EIGHTHS,
            behind: self.behind as u32,
            repeated: 0,
            dropped: 0,
            pitch: self.pitch,
        };
        steps::hear_all(
            p,
            f,
            y,
            e,
            h,
            s,
            KEPT_SAMPLES,
            b,
            &mut ts.periods,
            &mut ts.notes,
            &mut ts.rates,
        )
    }

    // The tones of a block are followed by the lead's reading, the voices, the list and the figures.
    fn follow(
        &mut self,
        q: Progress,
        number: u16,
        ts: &mut Tones,
        s: &[i16],
        b: usize,
        outs: &mut [i16; KEPT_OUTS],
        store: &mut [u32],
    )
        requires { Follows self.old q (tones ts.old.periods ts.old.notes ts.old.rates) s.now b outs.old }
        ensures { Followed self.old q number (tones ts.old.periods ts.old.notes ts.old.rates) s.now b outs.old store.old self.new outs.new store.new }
    {
        let g = led(
            self.behind as u32,
            &ts.rates,
            &ts.periods,
            s,
            b,
            &mut outs[..LONGEST_BLOCK],
        );
        let pitched = b as u32 - lists::count_of(&ts.periods[..b], 0);
        all_sung(
            self.chosen,
            &mut self.voices,
            self.hertz as u32,
            &ts.periods,
            &ts.notes,
            s,
            b,
            outs,
        );
        self.list = listed(
            self.listed,
            self.list,
            self.pitch.tone,
            self.count,
            &ts.periods,
            &mut ts.notes,
            b,
            pitched,
            store,
        );
        self.count = u64::from(q.count);
        self.pitch = pitch::settled(q.pitch);
        self.behind = u64::from(g.behind);
        self.last = Last {
            number,
            length: b as u16,
            repeated: g.repeated as u16,
            dropped: g.dropped as u16,
            pitched,
            strayed: strayed(&ts.rates[..b]),
        };
    }
}

impl Tuner {
    // A block is taken by a good record. Never inlined: a block that is given again has no need of the stack that it takes.
    #[inline(never)]
    pub fn take(&mut self, number: u16, samples: &[i16], store: &mut [u32])
        requires good { Good self.old }
        requires fits { (0 < length samples.now) × (length samples.now ≤ longest_block) × (self.old.numbers.count + length samples.now ≤ take_limit) }
        ensures tuner { self.new ≡ after_block self.old number samples.now store.old }
        ensures rows { store.new ≡ (list_after self.old samples.now store.old).store }
    {
        let b = samples.len();
        let mut s = [0i16; OPEN_SAMPLES];
        copying::join(&mut s, &self.heard, samples);
        let mut y = [0i16; OPEN_EIGHTHS];
        copying::front(&mut y, &self.eighths);
        let mut ts = Tones {
            periods: [0; LONGEST_BLOCK],
            notes: [0; LONGEST_BLOCK],
            rates: [0; LONGEST_BLOCK],
        };
        let q = self.numbers.hear(
            &mut y,
            &mut self.energies,
            &mut self.correlations,
            &s,
            b,
            &mut ts,
        );
        copying::keep(&mut self.heard, &s, b);
        copying::keep(&mut self.eighths, &y, q.places - KEPT_EIGHTHS);
        self.numbers
            .follow(q, number, &mut ts, &s, b, &mut self.outs, store);
    }
}

// ---- a block

// The output that voice j keeps is written, where it is chosen.
fn give_voice(j: u32, chosen: u32, kept: &[i16; KEPT_OUTS], b: usize, out: &mut [i16])
    requires { (j < 3) × (b ≤ longest_block) × (j < chosen → b ≤ length out.old) }
    ensures { out.new ≡ written_by j chosen b kept.now out.old }
{
    if j < chosen {
        let from = LONGEST_BLOCK * (j as usize + 1);
        copying::give(&kept[from..], out, b);
    }
}

// The outputs that lead and chosen voices keep are written.
fn give(
    chosen: u32,
    kept: &[i16; KEPT_OUTS],
    b: usize,
    out: &mut [i16],
    first: &mut [i16],
    second: &mut [i16],
    third: &mut [i16],
)
    requires { (chosen ≤ 3) × (b ≤ longest_block) × Roomy b (parts (1 + chosen) kept.now) (four out.old first.old second.old third.old) }
    ensures { four out.new first.new second.new third.new ≡ written b (parts (1 + chosen) kept.now) (four out.old first.old second.old third.old) }
{
    copying::give(kept, out, b);
    give_voice(0, chosen, kept, b, first);
    give_voice(1, chosen, kept, b, second);
    give_voice(2, chosen, kept, b, third);
}

impl Tuner {
    // The verdict on a block, with so much room for the outputs, by a good record.
    pub fn judge(&self, number: u16, samples: &[i16], room: usize) -> Result<Turn, Refusal>
        requires { (self.now.numbers.count ≤ take_limit) × (self.now.numbers.last.length ≤ longest_block) }
        ensures { Judged self.now.numbers self.now.heard number samples.now room (judged_number result) }
    {
        let b = samples.len();
        if b == 0 {
            return Err(Refusal::BlockEmpty);
        }
        if b > LONGEST_BLOCK {
            return Err(Refusal::BlockOver512);
        }
        if room < b {
            return Err(Refusal::OutputShort);
        }
        let n = &self.numbers;
        answers::judge(
            n.count,
            n.last.number,
            n.last.length,
            &self.heard,
            number,
            samples,
        )
    }

    // What a block is answered by its verdict; where it is not refused, the outputs that are then kept are written.
    pub fn answer(
        &self,
        verdict: Result<Turn, Refusal>,
        out: &mut [i16],
        first: &mut [i16],
        second: &mut [i16],
        third: &mut [i16],
    ) -> Answer
        requires { judged_number verdict ≤ 1 → (self.now.numbers.chosen ≤ 3) × (self.now.numbers.last.length ≤ longest_block) × Roomy self.now.numbers.last.length (kept_outs self.now) (four out.old first.old second.old third.old) }
        ensures answer { result ≡ answer_by (judged_number verdict) self.now.numbers.last.length self.now.numbers }
        ensures outs { four out.new first.new second.new third.new ≡ given_by (judged_number verdict) self.now.numbers.last.length (kept_outs self.now) (four out.old first.old second.old third.old) }
    {
        let n = &self.numbers;
        if verdict.is_ok() {
            let b = usize::from(n.last.length);
            give(n.chosen, &self.outs, b, out, first, second, third);
        }
        n.answer(verdict)
    }

    // A block is taken where that is the verdict; any other verdict leaves record and store as they were.
    pub fn take_by(
        &mut self,
        verdict: Result<Turn, Refusal>,
        number: u16,
        samples: &[i16],
        store: &mut [u32],
    )
        requires good { Good self.old }
        requires fits { judged_number verdict ≡ 0 → (0 < length samples.now) × (length samples.now ≤ longest_block) × (self.old.numbers.count + length samples.now ≤ take_limit) }
        ensures tuner { self.new ≡ cond (eqb (judged_number verdict) 0) (after_block self.old number samples.now store.old) self.old }
        ensures rows { store.new ≡ cond (eqb (judged_number verdict) 0) (list_after self.old samples.now store.old).store store.old }
    {
        if let Ok(Turn::Taken) = verdict {
            self.take(number, samples, store);
        }
    }

    // Takes a block, gives the last one again or refuses, and writes the outputs.
    pub fn block(
        &mut self,
        number: u16,
        samples: &[i16],
        out: &mut [i16],
        first: &mut [i16],
        second: &mut [i16],
        third: &mut [i16],
        store: &mut [u32],
    ) -> Answer
        ensures { Took self.old number samples.now (four out.old first.old second.old third.old) store.old
            self.new result (four out.new first.new second.new third.new) store.new }
    {
        if !self.is_good() {
            return self.answer(Err(Refusal::RecordOutOfRange), out, first, second, third);
        }
        let room = singers::least_room(
            u64::from(self.numbers.chosen),
            out.len(),
            first.len(),
            second.len(),
            third.len(),
        );
        let verdict = self.judge(number, samples, room);
        self.take_by(verdict, number, samples, store);
        self.answer(verdict, out, first, second, third)
    }
}

// ---- start

// A voice level with the input.
fn level(interval: u32) -> Voice
    ensures { result ≡ level_voice interval }
{
    Voice {
        interval,
        behind: 0,
    }
}

// The voice of interval j; in unison where there is none.
fn chosen_voice(intervals: &[i32], j: usize) -> Voice
    ensures { result ≡ level_voice (kept_interval (get_or intervals.now j (pos 0))) }
{
    match intervals.get(j) {
        Some(z) => level(singers::kept_interval(*z)),
        None => level(UNISON),
    }
}

#[tactic(auto, unfolding(crate::specs::Tuners::chosen_voices))]
fn chosen_voices(intervals: &[i32]) -> [Voice; 3]
    ensures { result ≡ chosen_voices intervals.now }
{
    [
        chosen_voice(intervals, 0),
        chosen_voice(intervals, 1),
        chosen_voice(intervals, 2),
    ]
}

// No list is asked for, or a store of so many numbers has room for one row.
fn store_fits(listed: u32, numbers: usize) -> bool
    ensures { result ≡ store_fits listed numbers }
{
    listed == 0 || lists::has_room(numbers)
}

// 0 keeps no list, any other number keeps one.
fn kept_list(listed: u32) -> u32
    ensures { result ≡ kept_list listed }
{
    u32::from(listed != 0)
}

// Whether a start may be made: the sample rate and the settings, then the store, then the intervals.
fn check_begin(
    hertz: u32,
    s: Settings,
    listed: u32,
    intervals: &[i32],
    store: &[u32],
) -> Result<(), Refusal>
    ensures { number_of result ≡ begin_number hertz s listed intervals.now (length store.now) }
{
    record::check_start(hertz, s)?;
    if !store_fits(listed, store.len()) {
        return Err(Refusal::StoreWithoutRoom);
    }
    singers::check_intervals(intervals)
}

impl Numbers {
    // Of a take that has not begun.
    #[tactic(auto, unfolding(crate::specs::Tuners::fresh_numbers))]
    fn fresh(hertz: u64, s: Settings, listed: u32, chosen: u32, voices: [Voice; 3]) -> Numbers
        ensures { result ≡ fresh_numbers hertz s listed chosen voices }
    {
        Numbers {
            layout: LAYOUT,
            settings: s,
            hertz,
            keyboard: keyboard::fresh(),
            count: 0,
            pitch: record::fresh_pitch(),
            behind: 0,
            last: Last {
                number: 0,
                length: 0,
                repeated: 0,
                dropped: 0,
                pitched: 0,
                strayed: 0,
            },
            listed,
            chosen,
            list: lists::begin(),
            voices,
        }
    }

    // Sample rate, settings, whether a list is kept, and the voices stay, each level with the input.
    fn begun_again(&self) -> Numbers
        ensures { result ≡ begun_again self.now }
    {
        let [first, second, third] = self.voices;
        let voices = [
            level(first.interval),
            level(second.interval),
            level(third.interval),
        ];
        Numbers::fresh(self.hertz, self.settings, self.listed, self.chosen, voices)
    }

    // A fresh tuner's.
    fn begun(hertz: u32, s: Settings, listed: u32, intervals: &[i32]) -> Numbers
        requires { length intervals.now ≤ 3 }
        ensures { silent_tuner result ≡ fresh_tuner hertz s (kept_list listed) intervals.now }
    {
        Numbers::fresh(
            u64::from(hertz),
            s,
            kept_list(listed),
            intervals.len() as u32,
            chosen_voices(intervals),
        )
    }

    // The default tuner's.
    fn default() -> Numbers
        ensures { silent_tuner result ≡ default_tuner }
    {
        Numbers::begun(CD_RATE, record::default_settings(), 0, &[])
    }
}

impl Default for Tuner {
    ghost is_default = { λ t. t ≡ default_tuner };

    #[tactic(auto, unfolding(crate::specs::Tuners::silent_tuner))]
    fn default() -> Tuner {
        Tuner {
            numbers: Numbers::default(),
            energies: [0; EIGHTH_LAGS],
            correlations: [0; EIGHTH_LAGS],
            heard: [0; KEPT_SAMPLES],
            eighths: [0; KEPT_EIGHTHS],
            outs: [0; KEPT_OUTS],
        }
    }
}

impl Tuner {
    // These numbers, and silence.
    #[tactic(auto, unfolding(crate::specs::Tuners::silent_tuner))]
    fn silence(&mut self, n: Numbers)
        ensures { self.new ≡ silent_tuner n }
    {
        self.numbers = n;
        self.energies = [0; EIGHTH_LAGS];
        self.correlations = [0; EIGHTH_LAGS];
        self.heard = [0; KEPT_SAMPLES];
        self.eighths = [0; KEPT_EIGHTHS];
        self.outs = [0; KEPT_OUTS];
    }

    // The fresh tuner, or the default one where something is bad. What the record held is not read.
    pub fn start(
        &mut self,
        hertz: u32,
        s: Settings,
        listed: u32,
        intervals: &[i32],
        store: &[u32],
    ) -> Result<(), Refusal>
        ensures { Started hertz s listed intervals.now store.now self.new (number_of result) }
    {
        let checked = check_begin(hertz, s, listed, intervals, store);
        self.silence(if checked.is_ok() {
            Numbers::begun(hertz, s, listed, intervals)
        } else {
            Numbers::default()
        });
        checked
    }

    // ---- change, keyboard bytes, reset, meter

    // The settings count from the next sample. Another channel forgets the key, the running status and any half message.
    pub fn change(&mut self, s: Settings) -> Result<(), Refusal>
        ensures { Changed self.old s self.new (number_of result) }
    {
        self.test()?;
        record::check_settings(s)?;
        let n = &mut self.numbers;
        n.keyboard = keyboard::on_channel(n.settings.channel, s.channel, n.keyboard);
        n.settings = s;
        Ok(())
    }

    // Bytes from the keyboard; what they leave held counts from the next tracking step.
    pub fn midi(&mut self, bytes: &[u8]) -> Result<(), Refusal>
        ensures { Keyed self.old bytes.now self.new (number_of result) }
    {
        self.test()?;
        let n = &mut self.numbers;
        n.keyboard = keyboard::played(n.settings.channel, n.keyboard, bytes);
        Ok(())
    }

    // Everything fresh but what `begun_again` keeps.
    pub fn reset(&mut self, store: &[u32]) -> Result<(), Refusal>
        ensures { Reset self.old store.now self.new (number_of result) }
    {
        if !self.is_good() {
            return Err(Refusal::RecordOutOfRange);
        }
        if !store_fits(self.numbers.listed, store.len()) {
            return Err(Refusal::StoreWithoutRoom);
        }
        let n = self.numbers.begun_again();
        self.silence(n);
        Ok(())
    }

    // Refused where the record is not good.
    pub fn meter(&self) -> Meter
        ensures { Metered self.now result }
    {
        if !self.is_good() {
            return Meter::Refused;
        }
        meters::shown(self.numbers.hertz as u32, self.numbers.pitch)
    }
}
