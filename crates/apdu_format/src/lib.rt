// The format of the ten messages: definitions in specs/, laws in proofs/, no code. The crate `apdu` has the records, `apdu_reading` the reader.

#![tactic(auto)]
