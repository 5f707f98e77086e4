// What the papers promise, sentence by sentence: definitions and theorems only. specs/Promises.antt is the page to read.

#![tactic(auto)]
