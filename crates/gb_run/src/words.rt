//! The request that the words of a command line spell.

ghost use Rattle.std.specs.Prelude.{◌≡◌, IfErr, IfOk, map, option_map};
ghost use Rattle.std.specs.Char.{is_ascii_digit};
ghost use Rattle.std.specs.List.{list_all};
ghost use Rattle.std.specs.String.{string_bytes};
ghost use Rattle.gb_defs.specs.Request as asked;
ghost use Rattle.gb_base.specs.PlSmallStr.{IsNoMemory, name_of};
ghost use Rattle.gb_agg.specs.Method.{method_of};
ghost use Rattle.gb_frame.specs.Agg as framed;
ghost use Rattle.gb_run.specs.Request as made;
ghost use Rattle.gb_run.specs.Words.{given_of, numbers_of};

use gb_agg::method::GroupByMethod;
use gb_base::error::PolarsResult;
use gb_base::small_str::PlSmallStr;
use gb_frame::agg::Agg;
use std::alloc::Global;

/// How the work is spread, and the null word. An option that the words do not give has its default.
#[derive(Drop)]
pub struct ToolOptions {
    pub workers: usize,
    pub partitions: usize,
    pub piece: usize,
    pub threshold: usize,
    pub seed: u64,
    pub null_word: PlSmallStr,
    pub explain: bool,
}

/// What the words of a command line ask.
#[derive(Drop)]
pub enum Request {
    Group {
        by: Vec<PlSmallStr>,
        aggs: Vec<Agg>,
        options: ToolOptions,
    },
}

/// The numbers that were given so far.
#[derive(Clone, Copy, Debug, PartialEq, Eq)]
pub struct Numbers {
    pub workers: Option<u64>,
    pub partitions: Option<u64>,
    pub piece: Option<u64>,
    pub threshold: Option<u64>,
    pub seed: Option<u64>,
}

fn is_digits(word: &str) -> bool
    ensures { result ≡ list_all is_ascii_digit word.now }
{
    word.as_bytes().iter().all(|byte| byte.is_ascii_digit())
}

// One to twenty digits, in range.
fn number_within(least: u64, most: u64, word: &str) -> Option<u64>
    ensures { result ≡ asked.number_within least most word.now }
{
    if word.is_empty() || word.len() > 20 || !is_digits(word) {
        return None;
    }
    let value = word.parse::<u64>().ok()?;
    if value < least || most < value {
        return None;
    }
    Some(value)
}

// The value of what was not given before.
fn once(before: Option<u64>, value: Option<u64>) -> Option<u64>
    ensures { result ≡ asked.once before value }
{
    match before {
        None => value,
        Some(_) => None,
    }
}

impl Numbers {
    pub fn none() -> Numbers
        ensures { numbers_of result ≡ asked.no_numbers }
    {
        Numbers {
            workers: None,
            partitions: None,
            piece: None,
            threshold: None,
            seed: None,
        }
    }

    /// With one more. None where the option is unknown, was given before, or its value is none.
    pub fn with(mut self, option: &str, word: &str) -> Option<Numbers>
        ensures { option_map numbers_of result
            ≡ asked.with_number option.now word.now (numbers_of self) }
    {
        if option == "--workers" {
            self.workers = Some(once(self.workers, number_within(1, 64, word))?);
        } else if option == "--partitions" {
            self.partitions = Some(once(self.partitions, number_within(1, 1024, word))?);
        } else if option == "--piece" {
            self.piece = Some(once(self.piece, number_within(1, 4_294_967_295, word))?);
        } else if option == "--threshold" {
            self.threshold = Some(once(self.threshold, number_within(1, 4_294_967_295, word))?);
        } else if option == "--seed" {
            self.seed = Some(once(self.seed, number_within(0, u64::MAX, word))?);
        } else {
            return None;
        }
        Some(self)
    }
}

/// What the words gave so far.
#[derive(Drop)]
pub struct Given {
    pub by: Vec<PlSmallStr>,
    pub aggs: Vec<Agg>,
    pub numbers: Numbers,
    pub null_word: Option<PlSmallStr>,
    pub explain: bool,
}

fn new_agg(alloc: Global, column: &str, method: GroupByMethod) -> PolarsResult<Agg>
    ensures ok { IfOk result (λ agg. framed.agg_of agg ≡ (column.now, method_of method)) }
    ensures err { IfErr result IsNoMemory }
{
    Ok(Agg {
        column: PlSmallStr::from_str(alloc, column)?,
        method,
    })
}

// The method that a word names which stands before a column's name.
#[tactic(auto, unfolding(gb_defs::specs::Request::method_named))]
fn method_named(word: &str) -> Option<GroupByMethod>
    ensures { option_map method_of result ≡ asked.method_named word.now }
{
    match word {
        "sum" => Some(GroupByMethod::Sum),
        "min" => Some(GroupByMethod::Min),
        "max" => Some(GroupByMethod::Max),
        "first" => Some(GroupByMethod::First),
        "last" => Some(GroupByMethod::Last),
        "n_unique" => Some(GroupByMethod::NUnique),
        "count" => Some(GroupByMethod::Count {
            include_nulls: true,
        }),
        "valid" => Some(GroupByMethod::Count {
            include_nulls: false,
        }),
        "list" => Some(GroupByMethod::Implode),
        _ => None,
    }
}

// The column and the method that METHOD:NAME names. The row lists are asked without a column, which is then empty.
#[tactic(auto, unfolding(gb_defs::specs::Request::agg_of))]
fn cut_agg(word: &str) -> Option<(&str, GroupByMethod)>
    ensures { option_map (λ cut. (cut.0.now, method_of cut.1)) result ≡ asked.agg_of word.now }
{
    if word == "groups" {
        return Some(("", GroupByMethod::Groups));
    }
    let (method, column) = word.split_once(':')?;
    Some((column, method_named(method)?))
}

// The aggregate that METHOD:NAME asks.
fn agg_of(alloc: Global, word: &str) -> PolarsResult<Option<Agg>>
    ensures ok { IfOk result (λ o. option_map framed.agg_of o ≡ asked.agg_of word.now) }
    ensures err { IfErr result IsNoMemory }
{
    match cut_agg(word) {
        Some((column, method)) => Ok(Some(new_agg(alloc, column, method)?)),
        None => Ok(None),
    }
}

impl Given {
    pub fn nothing(alloc: Global) -> Given
        ensures { given_of result ≡ asked.nothing }
    {
        Given {
            by: Vec::new(alloc),
            aggs: Vec::new(alloc),
            numbers: Numbers::none(),
            null_word: None,
            explain: false,
        }
    }

    fn with_key(mut self, alloc: Global, word: &str) -> PolarsResult<Option<Given>>
        ensures ok { IfOk result (λ o. option_map given_of o
            ≡ asked.with_key word.now (given_of self)) }
        ensures err { IfErr result IsNoMemory }
    {
        self.by.push(PlSmallStr::from_str(alloc, word)?)?;
        Ok(Some(self))
    }

    fn with_agg(mut self, alloc: Global, word: &str) -> PolarsResult<Option<Given>>
        ensures ok { IfOk result (λ o. option_map given_of o
            ≡ asked.with_agg word.now (given_of self)) }
        ensures err { IfErr result IsNoMemory }
    {
        let Some(agg) = agg_of(alloc, word)? else {
            return Ok(None);
        };
        self.aggs.push(agg)?;
        Ok(Some(self))
    }

    fn with_null_word(mut self, alloc: Global, word: &str) -> PolarsResult<Option<Given>>
        ensures ok { IfOk result (λ o. option_map given_of o
            ≡ asked.with_null_word word.now (given_of self)) }
        ensures err { IfErr result IsNoMemory }
    {
        if self.null_word.is_some() {
            return Ok(None);
        }
        self.null_word = Some(PlSmallStr::from_str(alloc, word)?);
        Ok(Some(self))
    }

    fn with_number(mut self, option: &str, word: &str) -> Option<Given>
        ensures { option_map given_of result
            ≡ asked.with_numbers option.now word.now (given_of self) }
    {
        self.numbers = self.numbers.with(option, word)?;
        Some(self)
    }

    /// With `--explain`. None where it was given before.
    pub fn with_explain(mut self) -> Option<Given>
        ensures { option_map given_of result ≡ asked.with_explain (given_of self) }
    {
        if self.explain {
            return None;
        }
        self.explain = true;
        Some(self)
    }

    /// With an option and its value. None where the option is unknown, was given before and may not
    /// come again, or its value does not read.
    pub fn with_option(self, alloc: Global, option: &str, word: &str) -> PolarsResult<Option<Given>>
        ensures ok { IfOk result (λ o. option_map given_of o
            ≡ asked.with_option option.now word.now (given_of self)) }
        ensures err { IfErr result IsNoMemory }
    {
        if option == "--by" {
            return self.with_key(alloc, word);
        }
        if option == "--agg" {
            return self.with_agg(alloc, word);
        }
        if option == "--null" {
            return self.with_null_word(alloc, word);
        }
        Ok(self.with_number(option, word))
    }
}

// What options give, None where there is one that is at fault.
fn given_from(alloc: Global, options: &[String]) -> PolarsResult<Option<Given>>
    ensures ok { IfOk result (λ o. option_map given_of o
        ≡ asked.given_from (map string_bytes options.now) asked.nothing) }
    ensures err { IfErr result IsNoMemory }
{
    let mut given = Given::nothing(alloc);
    let mut left = options;
    while let Some((option, after)) = left.split_first() {
        let option = option.as_str();
        if option == "--explain" {
            let Some(more) = given.with_explain() else {
                return Ok(None);
            };
            given = more;
            left = after;
        } else {
            let Some((word, rest)) = after.split_first() else {
                return Ok(None);
            };
            let Some(more) = given.with_option(alloc, option, word.as_str())? else {
                return Ok(None);
            };
            given = more;
            left = rest;
        }
    }
    Ok(Some(given))
}

// The defaults filled in.
fn options_of(numbers: Numbers, null_word: PlSmallStr, explain: bool) -> ToolOptions
    ensures { made.options_of result
        ≡ asked.options_of (numbers_of numbers) (name_of null_word) explain }
{
    let workers = numbers.workers.unwrap_or(4);
    ToolOptions {
        workers: workers as usize,
        partitions: numbers.partitions.unwrap_or(workers) as usize,
        piece: numbers.piece.unwrap_or(4096) as usize,
        threshold: numbers.threshold.unwrap_or(1000) as usize,
        seed: numbers.seed.unwrap_or(0),
        null_word,
        explain,
    }
}

// The request of what was given, None where there is no key.
fn group_of(alloc: Global, given: Given) -> PolarsResult<Option<Request>>
    ensures ok { IfOk result (λ o. option_map made.request_of o
        ≡ asked.group_of (given_of given)) }
    ensures err { IfErr result IsNoMemory }
{
    let Given {
        by,
        aggs,
        numbers,
        null_word,
        explain,
    } = given;
    if by.is_empty() {
        return Ok(None);
    }
    let null_word = match null_word {
        Some(word) => word,
        None => PlSmallStr::from_str(alloc, "")?,
    };
    Ok(Some(Request::Group {
        by,
        aggs,
        options: options_of(numbers, null_word, explain),
    }))
}

/// The request that the words spell, None where they spell none.
pub fn request_of(alloc: Global, words: &[String]) -> PolarsResult<Option<Request>>
    ensures ok { IfOk result (λ o. option_map made.request_of o
        ≡ asked.request (map string_bytes words.now)) }
    ensures err { IfErr result IsNoMemory }
{
    let Some((command, options)) = words.split_first() else {
        return Ok(None);
    };
    if command.as_str() != "group" {
        return Ok(None);
    }
    match given_from(alloc, options)? {
        Some(given) => group_of(alloc, given),
        None => Ok(None),
    }
}
