// What `checker_to_new` and `checker_to_old` promise: `ExportedConversion` in specs/. There is no code; the answer is put into cells by the crate exported_writing.
#![tactic(auto)]
