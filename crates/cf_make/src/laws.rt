// The theorem on generated files.
ghost use Rattle.std.specs.Prelude.{ℕ, ◌≡◌, ◌≤◌, ◌^◌, length};
ghost use Rattle.cf_pcap.specs.declared.links.LinkSet.TheVariants.{Basic};
ghost use Rattle.cf_pcap.specs.Links.{limited};
ghost use Rattle.cf_pcap.specs.Capture.{IsCapture};
ghost use Rattle.cf_make.specs.Generated.{generated_bytes, generated_frames};

/// Each generated file of at most 2^20 packets is a capture of so many frames, which are those of its packets.
pub fn each_generated_file_is_a_capture()
    ensures capture { (seed count : ℕ) → count ≤ 2 ^ 20 → IsCapture (limited Basic) (generated_bytes seed count) (generated_frames seed count) }
    ensures many { (seed count : ℕ) → length (generated_frames seed count) ≡ count }
{}
