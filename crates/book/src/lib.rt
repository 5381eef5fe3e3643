// The book of a grouped accumulator: its definitions and their laws. No code stands here.
#![tactic(auto)]
