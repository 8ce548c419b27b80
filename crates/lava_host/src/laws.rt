// Laws of the host.

ghost use Rattle.lava_host.specs.Laws.{Faults_are_counted, Paths_stay_inside};

/// The names that a path leads to below the application's folder go down alone, whatever a program gives as a path.
#[tactic(none)]
pub fn paths_stay_inside()
    ensures { Paths_stay_inside }
{}

/// `Outside` names the object whose count of faults rose in this call, and at every other answer none has risen.
#[tactic(none)]
pub fn faults_are_counted()
    ensures { Faults_are_counted }
{}
