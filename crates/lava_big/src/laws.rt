// The files of small applications in plain text, and the line behind the run of one.

ghost use Rattle.lava_big.specs.BigFiles.{One_package, Three_packages, Two_packages};
ghost use Rattle.lava_big.specs.Summaries.{One_summary};

/// The files of the application of one package.
#[tactic(none)]
pub fn one_package()
    ensures { One_package }
{}

/// The files of the application of two packages.
#[tactic(none)]
pub fn two_packages()
    ensures { Two_packages }
{}

/// The manifest and the policy of the application of three packages.
#[tactic(none)]
pub fn three_packages()
    ensures { Three_packages }
{}

/// The line behind the run of an application of one package.
#[tactic(none)]
pub fn one_summary()
    ensures { One_summary }
{}
