// What holds of texts, words and automata in general. Each function's contract is the theorem.
ghost use Rattle.automaton.specs.Lists.{ReadsBack, ReadsOn, ReadsValid};
ghost use Rattle.automaton.specs.LookLaw.{LastWordLaw, LookLaw};
ghost use Rattle.automaton.specs.Promise.{Examples, GoesToLongest, RunRemembers, RunTells, StatesAre, TailEnough, TailTells, TellsLongest};

// The end of the text that a table remembers is enough to go on.
pub fn tail_enough()
    ensures { TailEnough }
{}

// The remembered end tells when a word has just been completed.
pub fn tail_tells()
    ensures { TailTells }
{}

// A run of the automaton over a text ends in the state of the remembered end.
pub fn run_remembers()
    ensures { RunRemembers }
{}

// A word is completed at exactly the places where the state tells of one.
pub fn run_tells()
    ensures { RunTells }
{}

// The states are the empty text and the words' beginnings, each once.
pub fn states_are()
    ensures { StatesAre }
{}

// From a state and a byte the automaton goes to the longest end that is a state.
pub fn goes_to_longest()
    ensures { GoesToLongest }
{}

// A state tells of the longest word that its text ends in.
pub fn tells_longest()
    ensures { TellsLongest }
{}

// Two small automata.
pub fn examples()
    ensures { Examples }
{}

// A list that was written is read back.
pub fn reads_back()
    ensures { ReadsBack }
{}

// What is read is a valid list, as it is written.
pub fn reads_valid()
    ensures { ReadsValid }
{}

// More bytes change no answer, but that the list is cut.
pub fn reads_on()
    ensures { ReadsOn }
{}

// The last word of a text is the longest that it ends in.
pub fn last_word_law()
    ensures { LastWordLaw }
{}

// The look finds a word exactly where one comes to stand in the text, the first of them.
pub fn look_law()
    ensures { LookLaw }
{}
