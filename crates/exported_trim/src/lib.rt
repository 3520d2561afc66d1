// What `checker_trim` promises: `ExportedTrim` in specs/. There is no code; the answer is put into cells by the crate exported_writing.
#![tactic(auto)]
