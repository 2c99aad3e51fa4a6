//! The words of a run.
ghost use Rattle.std.specs.Prelude.{◌≡◌, ◌≢◌, ◌+◌, ◌*◌, ◌%◌, ◌<◌, ◌^◌, ℕ, List, length, drop, slice_get, IfNone, IfSome};
ghost use Rattle.std.specs.Prelude.{MatchOption};
ghost use Rattle.std.specs.Fmt.{decimal};
ghost use Rattle.std.specs.Option.{option_map};
ghost use Rattle.command_line.specs.Command.{is_one_of, pin_options, IsGroup, IsNoCommand, SpellsBytes};
ghost use Rattle.command_line.specs.Pairs.{is_value, first_word, options_of, is_pair, are_pairs, pairs_of, values_in};
ghost use Rattle.command_line.specs.Pairs.{value_in, is_within, AreWordsOf, GivesCallers, Asks, IsTask};
ghost use Rattle.command_line.specs.declared.words.Command.{Command};
ghost use Rattle.command_line.specs.declared.words.Command.TheVariants.{Serve, Show, World, Fill, Clear};
ghost use Rattle.command_line.specs.declared.words.Command.TheVariants.{Export, Standby};
ghost use Rattle.command_line.specs.declared.words.Task.TheVariants.{Serve as ServeTask, Show as ShowTask};
ghost use Rattle.command_line.specs.declared.words.Task.TheVariants.{Play, Fill as FillTask};
ghost use Rattle.command_line.specs.declared.words.Task.TheVariants.{Clear as ClearTask};
ghost use Rattle.command_line.specs.declared.words.Task.TheVariants.{Export as ExportTask, Standby as StandbyTask};

use crate::pin_words::{PinWords, pin_words};
use arrayvec::ArrayVec;
use issuer_base::{MAX_CALLERS, MAX_CARD_REQUESTS, MAX_CARDS, MAX_CHIP_BYTES, MAX_STEPS, Words};
use itoa::Buffer;

/// The words that a command begins with.
#[derive(Clone, Copy)]
pub(crate) enum Command {
    /// It answers the lines of a request file.
    Serve,
    /// It shows all cards.
    Show,
    /// It plays a world.
    World,
    /// It fills a DOL.
    Fill,
    /// It changes a PIN.
    Pin,
    /// It checks clearing lines.
    Clear,
    /// It exports journals.
    Export,
    /// It takes a feed into journals.
    Standby,
}

/// What the program does.
#[derive(Drop)]
pub enum Task<'a> {
    /// It answers the lines of a request file, over the journals of a configuration.
    Serve(ServeWords<'a>),
    /// It shows the cards of a configuration, as its journals say.
    Show(ShowWords<'a>),
    /// It plays a world of its own.
    Play(WorldSize),
    /// It fills a DOL from data objects.
    Fill(DolTexts),
    /// It writes the command that changes a card's PIN.
    Pin(PinWords<'a>),
    /// It checks clearing lines against the journals of a configuration.
    Clear(ClearWords<'a>),
    /// It writes the records of the journals of a configuration as the lines of a feed.
    Export(ExportWords<'a>),
    /// It takes the records of a feed into the journals of a configuration.
    Standby(StandbyWords<'a>),
}

/// What the words of the command to serve say.
#[derive(Clone, Copy)]
pub struct ServeWords<'a> {
    /// The name of the configuration.
    pub config: &'a str,
    /// The name of the request file.
    pub requests: &'a str,
    /// The prefix of the journals' names.
    pub journal: &'a str,
    /// How many callers answer the lines, 1 to 16.
    pub callers: u8,
}

/// The names in the words of the command to show cards.
#[derive(Clone, Copy)]
pub struct ShowWords<'a> {
    /// The name of the configuration.
    pub config: &'a str,
    /// The prefix of the journals' names.
    pub journal: &'a str,
}

/// The numbers in the words of the command to play a world.
#[derive(Clone, Copy)]
pub struct WorldSize {
    /// How many cards there are, 1 to 4,096.
    pub cards: u32,
    /// How many steps are played, at most 200,000, and at most 65,535 for each card.
    pub steps: u32,
    /// What the fates of the steps begin with.
    pub seed: u32,
}

/// What the words of the command to fill a DOL spell.
#[derive(Drop)]
pub struct DolTexts {
    /// The DOL.
    pub dol: ArrayVec<u8, MAX_CHIP_BYTES>,
    /// The data objects that it is filled from.
    pub data: ArrayVec<u8, MAX_CHIP_BYTES>,
}

/// The names in the words of the command to check clearing lines.
#[derive(Clone, Copy)]
pub struct ClearWords<'a> {
    /// The name of the configuration.
    pub config: &'a str,
    /// The name of the clearing file.
    pub clearing: &'a str,
    /// The prefix of the journals' names.
    pub journal: &'a str,
}

/// The names in the words of the command to export journals.
#[derive(Clone, Copy)]
pub struct ExportWords<'a> {
    /// The name of the configuration.
    pub config: &'a str,
    /// The prefix of the journals' names.
    pub journal: &'a str,
}

/// The names in the words of the command to take a feed into journals.
#[derive(Clone, Copy)]
pub struct StandbyWords<'a> {
    /// The name of the configuration.
    pub config: &'a str,
    /// The name of the feed.
    pub feed: &'a str,
    /// The prefix of the journals' names.
    pub journal: &'a str,
}

/// What the words ask for, and `None` where they are no command.
pub fn read_words(words: &Words) -> Option<Task<'_>>
    ensures task { IfSome result (IsTask words.now) }
    ensures other { IfNone result (IsNoCommand words.now) }
{
    match command_in(words)? {
        Command::Serve => Some(Task::Serve(serve_words(words)?)),
        Command::Show => Some(Task::Show(show_words(words)?)),
        Command::World => Some(Task::Play(world_size(words)?)),
        Command::Fill => Some(Task::Fill(dol_texts(words)?)),
        Command::Pin => Some(Task::Pin(pin_words(words)?)),
        Command::Clear => Some(Task::Clear(clear_words(words)?)),
        Command::Export => Some(Task::Export(export_words(words)?)),
        Command::Standby => Some(Task::Standby(standby_words(words)?)),
    }
}

/// The command that is the first word, if pairs of its options and their values follow it.
fn command_in(words: &Words) -> Option<Command>
    ensures { MatchOption result ((command : Command) → AreWordsOf command words.now → ⊥)
        (λ command. AreWordsOf command words.now) }
{
    if words.count() % 2 == 0 {
        return None;
    }
    let command = command_of(words.word(0))?;
    if !are_pairs(words, command) {
        return None;
    }
    Some(command)
}

/// What the words of the command to serve say.
fn serve_words(words: &Words) -> Option<ServeWords<'_>>
    requires { AreWordsOf Serve words.now }
    ensures names { IfSome result (λ names. IsTask words.now (ServeTask names)) }
    ensures none { IfNone result (Asks Serve words.now → ⊥) }
{
    let config = value_of(words, "--config")?;
    let file = value_of(words, "--requests")?;
    let journal = value_of(words, "--journal")?;
    let callers = callers_of(words)?;
    Some(ServeWords {
        config,
        requests: file,
        journal,
        callers,
    })
}

/// How many callers the words ask for: one where they don't say.
fn callers_of(words: &Words) -> Option<u8>
    requires { length words.now % 2 ≡ 1 }
    ensures { MatchOption result ((callers : ℕ) → GivesCallers words.now callers → ⊥) (GivesCallers words.now) }
{
    let given = given_for(words, "--callers");
    match given.first {
        None => Some(1),
        Some(word) if given.times == 1 => group_of(word),
        Some(_) => None,
    }
}

/// The number of callers that a word says; `None` where it says none that a run may have.
fn group_of(word: &str) -> Option<u8>
    ensures { MatchOption result ((callers : ℕ) → IsGroup callers → word.now ≢ decimal callers)
        (λ callers. (word.now ≡ decimal callers) × IsGroup callers) }
{
    let number = number_of(word)?;
    if 1 <= number && number <= u32::from(MAX_CALLERS) {
        Some(number as u8)
    } else {
        None
    }
}

/// The names in the words of the command to show.
fn show_words(words: &Words) -> Option<ShowWords<'_>>
    requires { AreWordsOf Show words.now }
    ensures names { IfSome result (λ names. IsTask words.now (ShowTask names)) }
    ensures none { IfNone result (Asks Show words.now → ⊥) }
{
    let config = value_of(words, "--config")?;
    let journal = value_of(words, "--journal")?;
    Some(ShowWords { config, journal })
}

/// The names in the words of the command to check clearing lines.
fn clear_words(words: &Words) -> Option<ClearWords<'_>>
    requires { AreWordsOf Clear words.now }
    ensures names { IfSome result (λ names. IsTask words.now (ClearTask names)) }
    ensures none { IfNone result (Asks Clear words.now → ⊥) }
{
    let config = value_of(words, "--config")?;
    let clearing = value_of(words, "--clearing")?;
    let journal = value_of(words, "--journal")?;
    Some(ClearWords {
        config,
        clearing,
        journal,
    })
}

/// The names in the words of the command to export journals.
fn export_words(words: &Words) -> Option<ExportWords<'_>>
    requires { AreWordsOf Export words.now }
    ensures names { IfSome result (λ names. IsTask words.now (ExportTask names)) }
    ensures none { IfNone result (Asks Export words.now → ⊥) }
{
    let config = value_of(words, "--config")?;
    let journal = value_of(words, "--journal")?;
    Some(ExportWords { config, journal })
}

/// The names in the words of the command to take a feed into journals.
fn standby_words(words: &Words) -> Option<StandbyWords<'_>>
    requires { AreWordsOf Standby words.now }
    ensures names { IfSome result (λ names. IsTask words.now (StandbyTask names)) }
    ensures none { IfNone result (Asks Standby words.now → ⊥) }
{
    let config = value_of(words, "--config")?;
    let feed = value_of(words, "--feed")?;
    let journal = value_of(words, "--journal")?;
    Some(StandbyWords {
        config,
        feed,
        journal,
    })
}

/// The numbers in the words of the command to play a world.
fn world_size(words: &Words) -> Option<WorldSize>
    requires { AreWordsOf World words.now }
    ensures size { IfSome result (λ size. IsTask words.now (Play size)) }
    ensures none { IfNone result (Asks World words.now → ⊥) }
{
    let cards = number_of(value_of(words, "--cards")?)?;
    let steps = number_of(value_of(words, "--steps")?)?;
    let seed = number_of(value_of(words, "--seed")?)?;
    if is_within(cards, steps) {
        Some(WorldSize { cards, steps, seed })
    } else {
        None
    }
}

/// The DOL and the data in the words of the command to fill one.
fn dol_texts(words: &Words) -> Option<DolTexts>
    requires { AreWordsOf Fill words.now }
    ensures texts { IfSome result (λ texts. IsTask words.now (FillTask texts)) }
    ensures none { IfNone result (Asks Fill words.now → ⊥) }
{
    let dol = bytes_of(value_of(words, "--dol")?)?;
    let data = bytes_of(value_of(words, "--data")?)?;
    Some(DolTexts { dol, data })
}

/// The bytes that a word spells in hexadecimal digits; `None` where it spells none, or more than 1,024.
fn bytes_of(word: &str) -> Option<ArrayVec<u8, MAX_CHIP_BYTES>>
    ensures { MatchOption result ((bytes : List ℕ) → SpellsBytes word.now bytes → ⊥)
        (λ bytes. SpellsBytes word.now bytes.items) }
{
    let count = word.len() / 2;
    if count == 0 {
        return None;
    }
    if count > MAX_CHIP_BYTES {
        return None;
    }
    let mut bytes = [0; MAX_CHIP_BYTES];
    match hex::decode_to_slice(word.as_bytes(), &mut bytes[..count]) {
        Ok(()) => Some(ArrayVec::try_from(&bytes[..count]).unwrap()),
        Err(_) => None,
    }
}

/// Whether a world may have so many cards and steps: no card takes more steps than it makes requests.
fn is_within(cards: u32, steps: u32) -> bool
    ensures { result ≡ is_within cards steps }
{
    1 <= cards
        && cards as usize <= MAX_CARDS
        && steps <= MAX_STEPS
        && steps <= MAX_CARD_REQUESTS * cards
}

/// The number that a word says in decimal digits, without a sign or a leading zero; `None` where it says none below
/// 2^32.
fn number_of(word: &str) -> Option<u32>
    ensures { MatchOption result ((number : ℕ) → number < 2 ^ 32 → word.now ≢ decimal number)
        (λ number. word.now ≡ decimal number) }
{
    let Ok(number) = word.parse::<u32>() else {
        return None;
    };
    let mut digits = Buffer::new();
    if digits.format(number) == word {
        Some(number)
    } else {
        None
    }
}

/// The command that begins with this word.
fn command_of(word: &str) -> Option<Command>
    ensures { MatchOption result ((command : Command) → word.now ≢ first_word command)
        (λ command. word.now ≡ first_word command) }
{
    match word {
        "serve" => Some(Command::Serve),
        "show" => Some(Command::Show),
        "world" => Some(Command::World),
        "fill" => Some(Command::Fill),
        "pin" => Some(Command::Pin),
        "clear" => Some(Command::Clear),
        "export" => Some(Command::Export),
        "standby" => Some(Command::Standby),
        _ => None,
    }
}

/// Whether the words after the first one are pairs, each of an option of the command and its value.
fn are_pairs(words: &Words, command: Command) -> bool
    requires { length words.now % 2 ≡ 1 }
    ensures { result ≡ are_pairs (options_of command) (pairs_of (drop 1 words.now)) }
{
    let mut left = words.count() / 2;
    let mut all = true;
    while left > 0 {
        left -= 1;
        if !is_pair(words.word(2 * left + 1), words.word(2 * left + 2), command) {
            all = false;
        }
    }
    all
}

fn is_pair(option: &str, value: &str, command: Command) -> bool
    ensures { result ≡ is_pair (options_of command) (record { option = option.now; value = value.now }) }
{
    is_option(option, command) && is_value(value)
}

fn is_option(word: &str, command: Command) -> bool
    ensures { result ≡ is_one_of (options_of command) word.now }
{
    match command {
        Command::Serve => matches!(word, "--callers" | "--config" | "--requests" | "--journal"),
        Command::Show | Command::Export => matches!(word, "--config" | "--journal"),
        Command::World => matches!(word, "--cards" | "--steps" | "--seed"),
        Command::Fill => matches!(word, "--dol" | "--data"),
        Command::Pin => is_pin_option(word),
        Command::Clear => matches!(word, "--config" | "--clearing" | "--journal"),
        Command::Standby => matches!(word, "--config" | "--feed" | "--journal"),
    }
}

fn is_pin_option(word: &str) -> bool
    ensures { result ≡ is_one_of pin_options word.now }
{
    matches!(
        word,
        "--config" | "--pan" | "--psn" | "--dki" | "--salt" | "--pin"
    )
}

fn is_value(word: &str) -> bool
    ensures { result ≡ is_value word.now }
{
    !word.is_empty() && !word.starts_with('-')
}

/// The value that the words after the first one give the option, if they give it once.
pub(crate) fn value_of<'a>(words: &'a Words, option: &str) -> Option<&'a str>
    requires { length words.now % 2 ≡ 1 }
    ensures { option_map (λ value. value.now) result ≡ value_in words.now option.now }
{
    let given = given_for(words, option);
    if given.times == 1 { given.first } else { None }
}

/// What the words after the first one give an option.
#[derive(Clone, Copy)]
struct Given<'a> {
    /// How often they give it a value.
    times: usize,
    /// The first of its values.
    first: Option<&'a str>,
}

fn given_for<'a>(words: &'a Words, option: &str) -> Given<'a>
    requires { length words.now % 2 ≡ 1 }
    ensures times { result.times ≡ length (values_in words.now option.now) }
    ensures first { option_map (λ value. value.now) result.first ≡ slice_get (values_in words.now option.now) 0 }
{
    let mut left = words.count() / 2;
    let mut first = None;
    let mut times: usize = 0;
    while left > 0 {
        left -= 1;
        let (name, value) = (words.word(2 * left + 1), words.word(2 * left + 2));
        if name == option {
            first = Some(value);
            times += 1;
        }
    }
    Given { times, first }
}
