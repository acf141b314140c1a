// What holds of the input in general. Each function's contract is the theorem.
ghost use Rattle.frames.specs.Whole.{BlocksRead, ConfigReadsOn, CutIsShort, ItemReadsOn, ReadsBack};

// More bytes change no item, but one that is cut.
pub fn item_reads_on()
    ensures { ItemReadsOn }
{}

// More bytes change no configuration, but one that is cut.
pub fn config_reads_on()
    ensures { ConfigReadsOn }
{}

// What is cut is short, so that there is room for more of it.
pub fn cut_is_short()
    ensures { CutIsShort }
{}

// What was written is read back.
pub fn reads_back()
    ensures { ReadsBack }
{}

// Reading block by block gives what stands in the whole input.
pub fn blocks_read()
    ensures { BlocksRead }
{}
