//! Laws of what is excused. Each is the contract of an empty function.
ghost use Rattle.totem_laws.specs.Excuses.{SenderIsPending, MemberIsPending};

/// In a run that meets the specifications, a process that sent a message, has not delivered it and did not fail there is listed
/// as pending with it. So 3 excuses nothing that is not listed.
pub fn sender_is_pending()
    ensures { SenderIsPending }
{}

/// In a run that meets the specifications, a member of a configuration in which a safe message was delivered that has not
/// delivered it and did not fail there is listed as pending with it. So 7.1 excuses nothing that is not listed.
pub fn member_is_pending()
    ensures { MemberIsPending }
{}
