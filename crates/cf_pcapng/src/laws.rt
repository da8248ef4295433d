// The theorems on files and streams.
ghost use Rattle.std.specs.Prelude.{ℕ, List};
ghost use Rattle.cf_pcap.specs.declared.scope.Scope.{Scope};
ghost use Rattle.cf_pcapng.specs.File.{State};
ghost use Rattle.cf_pcapng.specs.Laws.{OneCase, OneGift};
ghost use Rattle.cf_pcap.specs.Capture.{FrameValue};
ghost use Rattle.cf_pcap.specs.Links.{widened};
ghost use Rattle.cf_pcapng.specs.Rules.{StepsByRules, FileByRules, IsFileOf};
ghost use Rattle.cf_pcapng.specs.Truncated.{TruncatedCase};

/// Each file is a capture of one list of frames, or has one fault.
pub fn each_file_is_in_one_case()
    ensures { (scope : Scope) (file : List ℕ) → OneCase scope file }
{}

/// A stream gives one list of frames.
pub fn each_stream_gives_one_list()
    ensures { (scope : Scope) (stream : List ℕ) → OneGift scope stream }
{}

/// What a reader finds at the front of some bytes is what the rules say of the block there, both ways.
pub fn blocks_are_judged_by_the_rules()
    ensures { (scope : Scope) (s : State) (bytes : List ℕ) → StepsByRules scope s bytes }
{}

/// A file is a capture, or has a fault, just where the rules over whole files say so.
pub fn files_are_judged_by_the_rules()
    ensures { (scope : Scope) (file : List ℕ) → FileByRules scope file }
{}

/// A file that ends within a block, and not within its first section header, is a capture up to the end of its last whole block, of
/// the frames that its bytes give. Read as truncated, each file says one thing, or has one fault.
pub fn a_truncated_file_has_its_whole_blocks()
    ensures { (scope : Scope) (file : List ℕ) → TruncatedCase scope file }
{}

/// A capture of some frames is one of the same frames where all links are read.
pub fn a_capture_is_one_of_all_links()
    ensures { (scope : Scope) (file : List ℕ) (frames : List FrameValue) → IsFileOf scope file frames → IsFileOf (widened scope) file frames }
{}
