//! Worked examples of blocks, tables and scripts: what becomes of small texts, each as a lemma that the definitions
//! compute.
#![tactic(auto)]
