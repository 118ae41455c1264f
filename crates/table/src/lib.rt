// No code: document 01's starred examples, those of readers, of next tickets and of what a reader's turn tests, and the notation of all tables, stand
// in specs/.
#![tactic(auto)]
