// The theorems on files and streams.
ghost use Rattle.std.specs.Prelude.{ℕ, List, ◌++◌};
ghost use Rattle.cf_pcap.specs.declared.scope.Scope.{Scope};
ghost use Rattle.cf_pcap.specs.declared.fault.PcapFault.{PcapFault};
ghost use Rattle.cf_pcap.specs.Capture.{FrameValue, IsCapture, HasPcapFault};
ghost use Rattle.cf_pcap.specs.Links.{widened};
ghost use Rattle.cf_pcap.specs.Stream.{IsFound};
ghost use Rattle.cf_pcap.specs.Laws.{OneCase, OneGift, JudgedAlike};
ghost use Rattle.cf_pcap.specs.Truncated.{TruncatedCase};

/// Each file is a capture of one list of frames, or has one fault.
pub fn each_file_is_in_one_case()
    ensures { (scope : Scope) (file : List ℕ) → OneCase scope file }
{}

/// A stream gives one list of frames.
pub fn each_stream_gives_one_list()
    ensures { (scope : Scope) (stream : List ℕ) → OneGift scope stream }
{}

/// A fault that is found before the end is that of every file which begins so.
pub fn a_found_fault_stays()
    ensures { (scope : Scope) (stream more : List ℕ) (fault : PcapFault) → IsFound scope stream fault → HasPcapFault scope (stream ++ more) fault }
{}

/// A file is a capture, or has a fault, just where its units say so, by which it is read.
pub fn files_are_judged_alike()
    ensures { (scope : Scope) (file : List ℕ) → JudgedAlike scope file }
{}

/// A file that ends within a record, and not within its file header, is a capture up to the end of its last whole record, of the
/// frames that its bytes give. Read as truncated, each file says one thing, or has one fault.
pub fn a_truncated_file_has_its_whole_records()
    ensures { (scope : Scope) (file : List ℕ) → TruncatedCase scope file }
{}

/// A capture of some frames is one of the same frames where all links are read.
pub fn a_capture_is_one_of_all_links()
    ensures { (scope : Scope) (file : List ℕ) (frames : List FrameValue) → IsCapture scope file frames → IsCapture (widened scope) file frames }
{}
