// That every event keeps the record rules (01 Notes, note 2): laws over the definitions alone.

#![tactic(auto)]
