// Plain modules: what they mean, and that numbering and evaluation keep it.
#![tactic(auto)]
