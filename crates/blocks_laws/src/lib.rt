// No code: the laws of backups in blocks.
#![tactic(auto)]
