//! What holds of cutting and joining.
ghost use Rattle.std.specs.Prelude.{◌≡◌, ◌↔◌, ℕ, List, Some};
ghost use Rattle.std.specs.FinMap.{empty, values};
ghost use Rattle.jfr_outside.specs.World.{Files};
ghost use Rattle.jfr_plan.specs.Ends.{Fine};
ghost use Rattle.jfr_plan.specs.Effects.{Snapshot};
ghost use Rattle.jfr_split.specs.Parts.{SplitRule, IsUsable, folder_of};
ghost use Rattle.jfr_split.specs.Joins.{files_in, assembling};
ghost use Rattle.jfr_split.specs.Laws.{split_plan, split, Returns, FitsParts, AreJoinable};
ghost use Rattle.jfr_split.specs.Groups.{AreWritten};

/// The parts of a recording that is split to its end are its chunks in groups. A chunk starts a new part
/// exactly if the part before was full for it.
pub fn parts_are_written()
    ensures { (rule : SplitRule) (file recording : List ℕ) → (split_plan rule file recording).end ≡ Some Fine
        → AreWritten rule file recording }
{}

/// Joining gives the recording back: if it was split to its end, in a folder that had no files to join
/// before, joining the folder's files gives an output with the recording's bytes.
pub fn recording_returns()
    ensures { (rule : SplitRule) (folder file output recording : List ℕ) (before : Snapshot) → IsUsable rule → folder_of rule ≡ Some folder
        → files_in folder before.files ≡ empty
        → (split_plan rule file recording).end ≡ Some Fine
        → Returns folder output recording (split rule file recording before) }
{}

/// Cutting ends well exactly if the recording is cut into chunks without a flaw, and they need no more
/// parts than there may be.
pub fn cutting_ends_well()
    ensures { (rule : SplitRule) (file recording : List ℕ) → ((split_plan rule file recording).end ≡ Some Fine) ↔ FitsParts rule recording }
{}

/// Joining ends well exactly if the folder has a file to be joined, and each of them is cut into chunks
/// without a flaw.
pub fn joining_ends_well()
    ensures { (folder output : List ℕ) (files : Files) → ((assembling folder output files).end ≡ Some Fine) ↔ AreJoinable (values (files_in folder files)) }
{}
