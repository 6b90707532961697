//! Systems of normal equations over exact fractions, tables of words that hold them, and the law of
//! the certificate: definitions and their laws, with no call at run time.
#![tactic(auto)]
