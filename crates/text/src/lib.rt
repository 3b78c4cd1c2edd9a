// Runs of bytes, for the crates that read, write or compare them: nothing here runs. specs/ has whether two are the same, the bytes of a quoted text, and bytes written into a buffer.
#![tactic(auto)]
